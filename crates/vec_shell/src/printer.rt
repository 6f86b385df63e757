//! An output in front of its sink, as what takes a text part by part.

ghost use Rattle.std.specs.Prelude.{ℕ, ◌++◌, List as Seq};
ghost use Rattle.vec_shell.specs.Lines.{lines};
ghost use Rattle.vec_shell.specs.inner.Puts.{Puts};
ghost use Rattle.vec_shell.specs.inner.Sending.{Sent};

use crate::lines::put_reply;
use crate::output::Output;
use row_model::Reply;
use std::alloc::AllocError;
use vec_base::Sink;
use vec_text::Takes;

/// An output in front of its sink.
#[derive(Drop)]
struct Printer<'a, O: Sink> {
    output: &'a mut Output,
    sink: &'a mut O,
}

impl<'a, O: Sink> Takes for Printer<'a, O> {
    ghost use Rattle.std.specs.Prelude.{◌≡◌, refl};
    ghost use Rattle.std.proofs.Common.{◌∙◌};
    ghost use Rattle.vec_shell.specs.inner.Puts.{Puts, puts_none, puts_both};

    ghost adds = { λ part old new. (old.output.ghost_name ≡ new.output.ghost_name) × (old.sink.ghost_name ≡ new.sink.ghost_name)
        × Puts part
        old.output.now (O.taken old.sink.now) (O.faults old.sink.now)
        new.output.now (O.taken new.sink.now) (O.faults new.sink.now) };

    ghost may_want = { ⊥ };

    ghost none = { λ x. (refl, refl, puts_none) };

    ghost both = { λ a b x y z p q. (p.0 ∙ q.0, p.1 ∙ q.1, puts_both p.2 q.2) };

    fn put(&mut self, part: &str) -> Result<(), AllocError> {
        self.output.put(self.sink, part.as_bytes());
        Ok(())
    }
}

/// Writes the lines of a reply. It takes no memory beyond what the output holds. Answers whether the sink has taken them
/// all.
pub(crate) fn write_reply<O: Sink>(output: &mut Output, sink: &mut O, reply: &Reply) -> bool
    ensures { Sent (O.taken sink.old) (O.faults sink.old) (lines reply.now) result (O.taken sink.new) (O.faults sink.new) }
{
    output.begin();
    print_reply(output, sink, reply);
    output.end(sink)
}

/// Hands the lines of a reply to the output.
fn print_reply<O: Sink>(output: &mut Output, sink: &mut O, reply: &Reply)
    ensures { Puts (lines reply.now)
        output.old (O.taken sink.old) (O.faults sink.old)
        output.new (O.taken sink.new) (O.faults sink.new) }
{
    let mut printer = Printer { output, sink };
    let _ = put_reply(&mut printer, reply);
}
