ghost use Rattle.std.specs.Prelude.{◌≡◌, ◌≢◌, ◌≤◌, [], length, slice_get, All, IfSome, IsSomeAnd, MatchOption};
ghost use Rattle.ooo_interp.specs.Jobs.{IsFew, SeenAscend, number_seen};
ghost use Rattle.ooo_interp.specs.Ports.{values_in};

use crate::fifo_values::FifoValues;
use ooo_code::Seen;
use ooo_value::Value;
use sqlite_items::Items;

/// The values of the fifos that a job sees.
#[derive(Drop)]
pub struct SeenFifos {
    seen: Vec<Seen>,
    ghost ascending: { SeenAscend seen.items },
    ghost few: { All IsFew seen.items },
}

impl SeenFifos {
    /// The values of the fifos among what is seen.
    pub fn new(seen: Vec<Seen>) -> SeenFifos
        requires ascending { SeenAscend seen.items }
        requires few { All IsFew seen.items }
        ensures { result.seen ≡ seen }
    {
        SeenFifos { seen }
    }

    // The values of a fifo.
    fn of(&self, channel: u32) -> Option<&Items<Value>>
        ensures values { MatchOption result (values_in self.now.seen.items channel ≡ [])
            (λ v. v.now ≡ values_in self.now.seen.items channel) }
        ensures few { IfSome result (λ v. length v.now ≤ 65536) }
    {
        match place_of(&self.seen, channel) {
            Some(at) => match &self.seen[at] {
                Seen::Fifo(_, values, _) => Some(values),
                Seen::Signal(_, _, _) => None,
            },
            None => None,
        }
    }
}

impl FifoValues for SeenFifos {
    ghost use Rattle.ooo_interp.specs.Ports.{values_in};

    ghost values = { λ f. values_in f.seen.items };

    fn count(&self, channel: u32) -> u32 {
        match self.of(channel) {
            Some(values) => values.len() as u32,
            None => 0,
        }
    }

    fn value(&self, channel: u32, n: u32) -> Option<Value> {
        match self.of(channel) {
            Some(values) => values.get(n as usize).copied(),
            None => None,
        }
    }
}

// Where what is seen of a channel stands.
fn place_of(seen: &[Seen], channel: u32) -> Option<usize>
    requires { SeenAscend seen.now }
    ensures { MatchOption result (All (λ s. number_seen s ≢ channel) seen.now)
        (λ at. IsSomeAnd (slice_get seen.now at) (λ s. number_seen s ≡ channel)) }
{
    seen.binary_search_by_key(&channel, |s| number(s)).ok()
}

// The number of the channel of which it is seen.
pub(crate) fn number(seen: &Seen) -> u32
    ensures { result ≡ number_seen seen.now }
{
    match seen {
        Seen::Signal(channel, _, _) | Seen::Fifo(channel, _, _) => *channel,
    }
}
