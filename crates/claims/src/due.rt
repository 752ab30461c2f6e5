// When a responder's next step is due (specification, 'A claim's life'): the earliest of the steps that a tick walks. A tick says whether more is due; this
// says when, so that a caller can wait until then.
ghost use Rattle.std.specs.Prelude.{◌≡◌};
ghost use Rattle.claims.specs.due.Due.{earliest, next_due};

use crate::Progress;
use crate::steps::{STEPS, step_at, step_due};

// The earlier of two.
fn earlier(a: Option<u64>, b: Option<u64>) -> Option<u64>
    ensures { result ≡ earliest a b }
{
    match (a, b) {
        (Some(first), Some(second)) => Some(first.min(second)),
        _ => a.or(b),
    }
}

// When the next step is due.
pub fn next_due(progress: Progress) -> Option<u64>
    ensures { result ≡ next_due progress }
{
    let mut first = None;
    for i in 0..STEPS {
        first = earlier(first, step_due(step_at(i), progress));
    }
    first
}
