// The settings: a type for each, with its fixed numbers, the rows they make, and what a row says of a value and of the store.
ghost use Rattle.std.specs.Prelude.{◌≡◌, true, length};
ghost use Rattle.plan.specs.Plans.{stores_of};
ghost use Rattle.store.specs.Fields.{all_fit, field_stores};
ghost use Rattle.store.specs.Layout.{setting_fields};
ghost use Rattle.store.specs.Settings.{input_accepts, input_kept, input_shown, accepts, kept, shown, least_kept, most_kept, backlight, input, balance, pip_h, pip_v, ambient_low, ambient_high, tile, settings, is_at, setting_at, Listed, field_of, current};
ghost use Rattle.wire.specs.Digits.{found};
ghost use Rattle.store.specs.Inner.{row_fits};

use crate::fields::Field;
use plan::Plan;

// How many settings there are.
const SETTINGS: usize = 8;

// The values that a Set takes: all those of a range, or the inputs.
#[derive(Clone, Copy)]
pub enum Values {
    Range { least: u16, most: u16 },
    Inputs,
}

// The fixed numbers of a setting: page and code, the values, the largest of them, the unused value, and the place of its field.
#[derive(Clone, Copy)]
pub struct Row {
    pub page: u8,
    pub code: u8,
    pub values: Values,
    pub largest: u16,
    pub unused: u16,
    pub at: usize,
    pub width: usize,
}

// A setting's type holds its fixed numbers, and the row that they make. Of each it is proved that the row is the one that the definitions name.
pub trait Setting {
    ghost use Rattle.store.specs.declared.settings.Row.{Row};

    ghost ROW: { Row };

    const ROW: Row;

    // Its row, as the settings are listed.
    fn listed() -> Row
        ensures { result ≡ ROW }
    {
        Self::ROW
    }
}

impl Values {
    // Whether a Set takes a value.
    pub fn accepts(self, v: u16) -> bool
        ensures { result ≡ accepts self v }
    {
        match self {
            Values::Range { least, most } => (least <= v) & (v <= most),
            Values::Inputs => Input::accepts(v),
        }
    }

    // What is kept of an accepted value.
    pub fn kept(self, v: u16) -> u16
        ensures { result ≡ kept self v }
    {
        match self {
            Values::Range { .. } => v,
            Values::Inputs => Input::kept(v),
        }
    }

    // What is shown of what is kept.
    pub fn shown(self, k: u16) -> u16
        ensures { result ≡ shown self k }
    {
        match self {
            Values::Range { .. } => k,
            Values::Inputs => Input::shown(k),
        }
    }

    // The least that is kept.
    fn least_kept(self) -> u16
        ensures { result ≡ least_kept self }
    {
        match self {
            Values::Range { least, .. } => least,
            Values::Inputs => 0,
        }
    }

    // The most that is kept.
    fn most_kept(self) -> u16
        ensures { result ≡ most_kept self }
    {
        match self {
            Values::Range { most, .. } => most,
            Values::Inputs => 2,
        }
    }
}

impl Row {
    // Whether a page and a code are the row's.
    fn is_at(self, page: u8, code: u8) -> bool
        ensures { result ≡ is_at page code self }
    {
        (page == self.page) & (code == self.code)
    }

    // Where its field lies.
    fn field(self) -> Field
        requires { Listed self }
        ensures { (result.at ≡ self.at) × (result.width ≡ self.width) }
    {
        Field {
            at: self.at,
            width: self.width,
        }
    }

    // The current value, as a Get shows it.
    #[tactic(auto, unfolding(crate::specs::Settings::current))]
    pub fn current(self, store: &[u8]) -> u16
        requires store_len { length store.now ≡ 128 }
        requires listed { Listed self }
        ensures { result ≡ current store.now self }
    {
        self.values.shown(self.field().get(store))
    }

    // Whether its field holds a value that it may hold.
    #[tactic(auto, unfolding(crate::specs::Inner::row_fits))]
    fn is_in_range(self, store: &[u8]) -> bool
        requires store_len { length store.now ≡ 128 }
        requires listed { Listed self }
        ensures { result ≡ row_fits store.now self }
    {
        self.field()
            .fits(store, self.values.least_kept(), self.values.most_kept())
    }

    // What a Set of an accepted value stores.
    pub fn stores(self, store: &[u8], v: u16) -> Plan
        requires store_len { length store.now ≡ 128 }
        requires listed { Listed self }
        requires v_value { accepts self.values v ≡ true }
        ensures { stores_of result ≡ field_stores store.now (field_of self) (kept self.values v) }
    {
        self.field().stores(store, self.values.kept(v))
    }
}

// All settings, in the order of the store.
fn rows() -> [Row; SETTINGS]
    ensures { result ≡ settings }
{
    [
        Backlight::listed(),
        Input::listed(),
        Balance::listed(),
        PipH::listed(),
        PipV::listed(),
        AmbientLow::listed(),
        AmbientHigh::listed(),
        Tile::listed(),
    ]
}

// The setting of a page and a code.
pub fn setting_at(page: u8, code: u8) -> Option<Row>
    ensures { found result ≡ setting_at page code }
{
    let rows = rows();
    for row in &rows {
        if row.is_at(page, code) {
            return Some(*row);
        }
    }
    None
}

// Whether each setting's field holds a value that it may hold.
pub fn in_range(store: &[u8]) -> bool
    requires { length store.now ≡ 128 }
    ensures { result ≡ all_fit store.now setting_fields }
{
    let rows = rows();
    let mut all = true;
    for row in &rows {
        all &= row.is_in_range(store);
    }
    all
}

#[derive(Clone, Copy)]
pub struct Backlight;

impl Backlight {
    pub const PAGE: u8 = 0x00;

    pub const CODE: u8 = 0x10;

    pub const LARGEST: u16 = 100;

    pub const UNUSED: u16 = 70;

    pub const WIDTH: usize = 7;

    pub const AT: usize = 8;
}

impl Setting for Backlight {
    ghost ROW = { backlight };

    const ROW: Row = Row {
        page: Self::PAGE,
        code: Self::CODE,
        values: Values::Range {
            least: 0,
            most: Self::LARGEST,
        },
        largest: Self::LARGEST,
        unused: Self::UNUSED,
        at: Self::AT,
        width: Self::WIDTH,
    };
}

#[derive(Clone, Copy)]
pub struct Input;

impl Input {
    pub const PAGE: u8 = 0x00;

    pub const CODE: u8 = 0x60;

    pub const LARGEST: u16 = 17;

    pub const UNUSED: u16 = 1;

    pub const WIDTH: usize = 2;

    pub const AT: usize = 15;
}

impl Setting for Input {
    ghost ROW = { input };

    const ROW: Row = Row {
        page: Self::PAGE,
        code: Self::CODE,
        values: Values::Inputs,
        largest: Self::LARGEST,
        unused: Self::UNUSED,
        at: Self::AT,
        width: Self::WIDTH,
    };
}

impl Input {
    pub fn accepts(v: u16) -> bool
        ensures { result ≡ input_accepts v }
    {
        matches!(v, 1 | 3 | 4) | (v == Self::LARGEST)
    }

    // 0, 1, 2 for 1, 3, 17; 4 is kept as 17.
    pub fn kept(v: u16) -> u16
        ensures { result ≡ input_kept v }
    {
        match v {
            1 => 0,
            3 => 1,
            _ => 2,
        }
    }

    // 1, 3, 17 for 0, 1, 2.
    pub fn shown(k: u16) -> u16
        ensures { result ≡ input_shown k }
    {
        match k {
            0 => 1,
            1 => 3,
            _ => Self::LARGEST,
        }
    }
}

#[derive(Clone, Copy)]
pub struct Balance;

impl Balance {
    pub const PAGE: u8 = 0x00;

    pub const CODE: u8 = 0x93;

    pub const LARGEST: u16 = 60;

    pub const UNUSED: u16 = 30;

    pub const WIDTH: usize = 6;

    pub const AT: usize = 17;
}

impl Setting for Balance {
    ghost ROW = { balance };

    const ROW: Row = Row {
        page: Self::PAGE,
        code: Self::CODE,
        values: Values::Range {
            least: 0,
            most: Self::LARGEST,
        },
        largest: Self::LARGEST,
        unused: Self::UNUSED,
        at: Self::AT,
        width: Self::WIDTH,
    };
}

#[derive(Clone, Copy)]
pub struct PipH;

impl PipH {
    pub const PAGE: u8 = 0x02;

    pub const CODE: u8 = 0x74;

    pub const LARGEST: u16 = 100;

    pub const UNUSED: u16 = 50;

    pub const WIDTH: usize = 7;

    pub const AT: usize = 23;
}

impl Setting for PipH {
    ghost ROW = { pip_h };

    const ROW: Row = Row {
        page: Self::PAGE,
        code: Self::CODE,
        values: Values::Range {
            least: 0,
            most: Self::LARGEST,
        },
        largest: Self::LARGEST,
        unused: Self::UNUSED,
        at: Self::AT,
        width: Self::WIDTH,
    };
}

#[derive(Clone, Copy)]
pub struct PipV;

impl PipV {
    pub const PAGE: u8 = 0x02;

    pub const CODE: u8 = 0x75;

    pub const LARGEST: u16 = 100;

    pub const UNUSED: u16 = 50;

    pub const WIDTH: usize = 7;

    pub const AT: usize = 30;
}

impl Setting for PipV {
    ghost ROW = { pip_v };

    const ROW: Row = Row {
        page: Self::PAGE,
        code: Self::CODE,
        values: Values::Range {
            least: 0,
            most: Self::LARGEST,
        },
        largest: Self::LARGEST,
        unused: Self::UNUSED,
        at: Self::AT,
        width: Self::WIDTH,
    };
}

#[derive(Clone, Copy)]
pub struct AmbientLow;

impl AmbientLow {
    pub const PAGE: u8 = 0x10;

    pub const CODE: u8 = 0x33;

    pub const LARGEST: u16 = 100;

    pub const UNUSED: u16 = 20;

    pub const WIDTH: usize = 7;

    pub const AT: usize = 37;
}

impl Setting for AmbientLow {
    ghost ROW = { ambient_low };

    const ROW: Row = Row {
        page: Self::PAGE,
        code: Self::CODE,
        values: Values::Range {
            least: 0,
            most: Self::LARGEST,
        },
        largest: Self::LARGEST,
        unused: Self::UNUSED,
        at: Self::AT,
        width: Self::WIDTH,
    };
}

#[derive(Clone, Copy)]
pub struct AmbientHigh;

impl AmbientHigh {
    pub const PAGE: u8 = 0x10;

    pub const CODE: u8 = 0x34;

    pub const LARGEST: u16 = 100;

    pub const UNUSED: u16 = 80;

    pub const WIDTH: usize = 7;

    pub const AT: usize = 44;
}

impl Setting for AmbientHigh {
    ghost ROW = { ambient_high };

    const ROW: Row = Row {
        page: Self::PAGE,
        code: Self::CODE,
        values: Values::Range {
            least: 0,
            most: Self::LARGEST,
        },
        largest: Self::LARGEST,
        unused: Self::UNUSED,
        at: Self::AT,
        width: Self::WIDTH,
    };
}

#[derive(Clone, Copy)]
pub struct Tile;

impl Tile {
    pub const PAGE: u8 = 0x10;

    pub const CODE: u8 = 0x4A;

    pub const LARGEST: u16 = 2;

    pub const UNUSED: u16 = 1;

    pub const WIDTH: usize = 2;

    pub const AT: usize = 51;
}

impl Setting for Tile {
    ghost ROW = { tile };

    const ROW: Row = Row {
        page: Self::PAGE,
        code: Self::CODE,
        values: Values::Range {
            least: 1,
            most: Self::LARGEST,
        },
        largest: Self::LARGEST,
        unused: Self::UNUSED,
        at: Self::AT,
        width: Self::WIDTH,
    };
}
