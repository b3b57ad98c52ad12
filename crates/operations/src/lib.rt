// One operation of a trace on an area, by the inner call of the policy. As every inner call it asks that the area holds a
// well-formed state of that policy, of capacity c, and leaves one.
//
// The operation is matched before the kind: in a loop over a trace the compiler then joins this match with that on the
// operation's code, and with that on the answer. The other way round each was an indirect jump, and took 7 to 17 % more
// instructions. A loop for each policy was no better: the reader, then called twice, is no longer inlined (D57).
#![tactic(auto)]

ghost use Rattle.rules.specs.Batch.{call_of};
ghost use Rattle.answers.specs.Answers.{reply_is};
ghost use Rattle.contracts.specs.Policy.{policy_of};
ghost use Rattle.contracts.specs.Inner.{Good, Did};

use answers::Reply;
use rules::Kind;
use trace::Operation;

// The operation, by the policy of that kind.
pub fn operate(area: &mut [u64], c: usize, kind: Kind, op: Operation) -> Reply
    requires { Good (policy_of kind) c area.old }
    ensures { Did (policy_of kind) (call_of op) c area.old area.new (reply_is result) }
{
    match op {
        Operation::Get { page } => Reply::Got(inner_calls::get(area, c, kind, page)),
        Operation::Insert { page, frame } => {
            Reply::Inserted(inner_calls::insert(area, c, kind, page, frame))
        }
        Operation::Remove { page } => Reply::Gone(inner_calls::remove(area, c, kind, page)),
        Operation::Clear => {
            inner_calls::clear(area, c, kind);
            Reply::Cleared
        }
        Operation::Peek { page } => Reply::Seen(inner_calls::peek(area, c, kind, page)),
    }
}
