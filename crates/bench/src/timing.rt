// Times of single works in seconds: the best of several rounds, each of so many works that a clock can tell.
use crate::fault::Fault;
use crate::size::Size;
use std::time::Instant;

// How many works a round has, and how many rounds there are.
#[derive(Clone, Copy)]
pub struct Plan {
    works: u32,
    rounds: u32,
}

impl Plan {
    // For tables of a size: the smaller they are, the more often.
    pub fn for_size(size: Size) -> Plan {
        let size = size.declarations();
        Plan {
            works: (100_000 / size).clamp(1, 1_000),
            rounds: (20_000_000 / size).clamp(10, 500),
        }
    }

    // For works of one walk along each chain: a walk takes the same time at every size, but for what the caches hold.
    pub fn for_walks(size: Size) -> Plan {
        Plan {
            works: 100_000 / size.chains(),
            rounds: 20,
        }
    }

    // The seconds of one work.
    pub(crate) fn fastest<W: FnMut() -> Result<(), Fault>>(
        self,
        rt: &HostRuntime,
        mut work: W,
    ) -> Result<f64, Fault>
        requires { W.IsAlwaysCallable work }
    {
        let mut best = f64::INFINITY;
        for _ in 0..self.rounds {
            let start = Instant::now(rt)?;
            for _ in 0..self.works {
                work()?;
            }
            let seconds = start.elapsed(rt)?.as_secs_f64() / f64::from(self.works);
            best = best.min(seconds);
        }
        Ok(best)
    }
}
