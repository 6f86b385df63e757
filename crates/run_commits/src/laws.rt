//! Laws of commits. The calls do nothing: their clauses are all that they give.
ghost use Rattle.std.specs.Prelude.{◌≡◌, false};
ghost use Rattle.row_model.specs.Step.{Steps, answer_of};
ghost use Rattle.row_model.specs.declared.request.Reply.{Reply};
ghost use Rattle.row_model.specs.declared.request.Request.{Request};
ghost use Rattle.row_model.specs.declared.state.State.{State};
ghost use Rattle.run_commits.specs.Commits.{after, commit_of, is_fault, listed_commit};

/// The machine itself answers no fault of the store.
pub fn answers_without_fault()
    ensures { (state : State) (request : Request) → is_fault (answer_of state request).0 ≡ false }
{}

/// After a step the committed catalog is the one after its commit, where that was acknowledged, and else the one from before.
pub fn catalogs_follow()
    ensures { (old new : State) (request : Request) (reply : Reply) → Steps old request reply new → new.catalog ≡ after old.catalog (listed_commit (commit_of old request reply)) }
{}
