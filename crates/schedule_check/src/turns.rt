// Whether the events of each thread stand by rising number.
ghost use Rattle.std.specs.Prelude.{◌≡◌, ◌^◌, ◌<◌, MatchOption, length};
ghost use Rattle.schedule_check.specs.Turns.{IsInTurn, IsFirstOvertaken};

use light_base::Event;

// How many numbers of threads there are.
const THREADS: usize = 256;

// The first event that stands after one of its thread with a greater number: the nearest earlier position of its thread, and its
// own.
pub(crate) fn first_overtaken(order: &[Event]) -> Option<(u32, u32)>
    requires { length order.now < 2 ^ 32 }
    ensures { MatchOption result (IsInTurn order.now (length order.now)) (λ p. IsFirstOvertaken order.now p.0 p.1) }
{
    let mut nearest: [Option<u32>; THREADS] = [None; THREADS];
    for (j, event) in order.iter().enumerate() {
        let thread = event.thread as usize;
        if let Some(i) = nearest[thread] {
            if event.step < order[i as usize].step {
                return Some((i, j as u32));
            }
        }
        nearest[thread] = Some(j as u32);
    }
    None
}
