// The batches of a packet file: how many octets the next one has, and what is wrong where there is none.
ghost use Rattle.std.specs.Prelude.{◌≡◌, ◌≤◌, length, drop};
ghost use Rattle.rules.specs.Areas.{laid};
ghost use Rattle.streams.specs.FileBatches.{gathered, wrong_of, wrong_at};

use rules::Measure;

// What is wrong with a packet of a file: it is a packet of neither family; it is idle; it is longer than the lane's longest, and how long;
// the file ends before it does.
#[derive(Clone, Copy)]
pub enum Wrong {
    NoPacket,
    Idle,
    Long(usize),
    Cut,
}

// How many octets at the front are the next batch of a packet lane with this longest. The loop goes from packet to packet: no range counts that.
pub fn gather(s: &[u8], longest: usize) -> usize
    ensures value { result ≡ gathered longest s.now }
    ensures upper_bound { result ≤ length s.now }
{
    let mut i: usize = 0;
    while i < s.len() {
        let Measure::Packet(_, n) = packets::measure_at(&s[i..]) else {
            return i;
        };
        let room = rules::BATCH_SIZE - i;
        if s.len() - i < n || longest < n || room < n {
            return i;
        }
        i += n;
    }
    i
}

// What is wrong with a measured packet of which n octets are there, if anything is.
#[tactic(auto, unfolding(crate::specs::FileBatches::wrong_of))]
fn wrong_of(longest: usize, m: Measure, n: usize) -> Option<Wrong>
    ensures { result ≡ wrong_of longest m n }
{
    match m {
        Measure::Lacks(_) if n == 0 => None,
        Measure::Lacks(_) => Some(Wrong::Cut),
        Measure::Packet(_, size) if longest < size => Some(Wrong::Long(size)),
        Measure::Packet(_, size) if n < size => Some(Wrong::Cut),
        Measure::Packet(_, _) => None,
        Measure::Idle(_) => Some(Wrong::Idle),
        Measure::Unreadable => Some(Wrong::NoPacket),
    }
}

// What is wrong with the packet at the front, if anything is, where the octets go to the file's end.
#[tactic(auto, unfolding(crate::specs::FileBatches::wrong_at))]
pub fn wrong_at(s: &[u8], longest: usize) -> Option<Wrong>
    ensures { result ≡ wrong_at longest s.now }
{
    wrong_of(longest, packets::measure_at(s), s.len())
}

// Moves the octets from octet `from` on to the front; those behind them stay.
#[tactic(auto, unfolding(rules::specs::Areas::laid))]
pub fn shift(area: &mut [u8], from: usize)
    ensures { area.new ≡ laid area.old 0 (drop from area.old) }
{
    let start = from.min(area.len());
    area.copy_within(start.., 0);
}
