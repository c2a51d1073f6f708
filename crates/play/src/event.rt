// Events as numbers: what `play` takes of an event first.
ghost use Rattle.std.specs.Prelude.{◌≡◌, ◌≤◌};
ghost use Rattle.play.specs.Inner.{number_for, part_as, Decodes};

// What happens: a byte comes, the line has a gap, an erase step is made, or the power is lost and comes back.
#[derive(Clone, Copy)]
pub enum EventKind {
    Byte(u8),
    Gap,
    Step,
    Cut,
}

const GAP: u16 = 256;

const STEP: u16 = 257;

// The least of the numbers that are a cut's.
const CUT: u16 = 258;

impl From<u16> for EventKind {
    ghost from_gives = { Decodes };

    fn from(number: u16) -> Self {
        match number {
            0..=255 => EventKind::Byte(number as u8),
            GAP => EventKind::Gap,
            STEP => EventKind::Step,
            _ => EventKind::Cut,
        }
    }
}

impl From<EventKind> for u16 {
    ghost from_gives = { λ kind number. number ≡ number_for kind };

    fn from(kind: EventKind) -> Self {
        match kind {
            EventKind::Byte(b) => u16::from(b),
            EventKind::Gap => GAP,
            EventKind::Step => STEP,
            EventKind::Cut => CUT,
        }
    }
}

impl EventKind {
    // How long an event's part of what is lent is: a cut has none, and none is longer than what is left.
    pub fn part(self, wanted: u16, left: usize) -> usize
        ensures { (result ≡ part_as self wanted left) × (result ≤ left) }
    {
        match self {
            EventKind::Cut => 0,
            _ => left.min(usize::from(wanted)),
        }
    }
}
