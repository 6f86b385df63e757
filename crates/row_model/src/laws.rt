//! Laws of the definitions: each is the clause of a function that does nothing.
ghost use Rattle.row_model.specs.declared.request.Reply.{Reply as ReplyOf};
ghost use Rattle.row_model.specs.declared.request.Request.{Request as RequestOf};
ghost use Rattle.row_model.specs.declared.state.State.{State as StateOf};
ghost use Rattle.row_model.specs.Step.{Steps};
ghost use Rattle.row_model.specs.Valid.{IsValidState};
ghost use Rattle.row_model.specs.WellFormed.{IsWellFormedRequest};

/// Each step of a valid state with a well-formed request leaves a valid state.
pub fn steps_leave_valid_states()
    ensures { (old new : StateOf) (request : RequestOf) (reply : ReplyOf) → IsValidState old → IsWellFormedRequest request → Steps old request reply new → IsValidState new }
{}
