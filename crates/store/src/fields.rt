// Packed fields of the store.
ghost use Rattle.std.specs.Prelude.{◌≡◌, ◌+◌, ◌-◌, ◌/◌, ◌^◌, ◌<◌, length, take, drop};
ghost use Rattle.bitfield.specs.Field.{get_field, put_field};
ghost use Rattle.plan.specs.Plans.{stores_of};
ghost use Rattle.store.specs.Fields.{fits_in, bytes_around, all_fit};
ghost use Rattle.store.specs.Layout.{fields_in_range, date_fields, length_fields};
ghost use Rattle.store.specs.Inner.{InStore};

use crate::settings;
use plan::Plan;

// Some bits of the store, within two of its bytes: the first bit and how many there are.
#[derive(Clone, Copy)]
pub struct Field {
    pub at: usize,
    pub width: usize,
    ghost in_store: { InStore at width },
}

// The fields that are no settings.
pub const POWER: Field = Field { at: 53, width: 1 };

pub const YEAR: Field = Field { at: 54, width: 7 };

pub const MONTH: Field = Field { at: 61, width: 4 };

pub const DAY: Field = Field { at: 65, width: 5 };

pub const WEEKDAY: Field = Field { at: 70, width: 3 };

pub const HOUR: Field = Field { at: 73, width: 5 };

pub const MINUTE: Field = Field { at: 78, width: 6 };

pub const TAG_LENGTH: Field = Field { at: 84, width: 5 };

pub const FORMER_LENGTH: Field = Field { at: 89, width: 5 };

impl Field {
    // The value that it holds.
    pub fn get(self, store: &[u8]) -> u16
        requires { length store.now ≡ 128 }
        ensures value { result ≡ get_field store.now self.at self.width }
        ensures bound { result < 2 ^ self.width }
    {
        bitfield::get(store, self.at, self.width)
    }

    // Whether it holds a value from least to most.
    pub fn fits(self, store: &[u8], least: u16, most: u16) -> bool
        requires { length store.now ≡ 128 }
        ensures { result ≡ fits_in least most (get_field store.now self.at self.width) }
    {
        let v = self.get(store);
        (least <= v) & (v <= most)
    }

    // What a change of it alone stores: one byte, or two.
    pub fn stores(self, store: &[u8], value: u16) -> Plan
        requires store_len { length store.now ≡ 128 }
        requires value_bound { value < 2 ^ self.width }
        ensures { stores_of result ≡ bytes_around self.at self.width (put_field store.now self.at self.width value) }
    {
        let around = self.bytes_around(store, value);
        let first = self.at / 8;
        let end = (self.at + self.width + 7) / 8;
        Plan::empty().with_range(first as u8, &around[..end - first])
    }

    // The bytes that have one of its bits, with a value in it: one, or two.
    fn bytes_around(self, store: &[u8], value: u16) -> [u8; 2]
        requires store_len { length store.now ≡ 128 }
        requires value_bound { value < 2 ^ self.width }
        ensures { take ((self.at + self.width + 7) / 8 - self.at / 8) result ≡ take ((self.at + self.width + 7) / 8 - self.at / 8) (drop (self.at / 8) (put_field store.now self.at self.width value)) }
    {
        let mut around = [0u8; 2];
        let first = self.at / 8;
        let end = (self.at + self.width + 7) / 8;
        around[..end - first].copy_from_slice(&store[first..end]);
        bitfield::put(&mut around, self.at % 8, self.width, value);
        around
    }
}

// Whether each field holds a value that it may hold.
#[tactic(auto, using(crate::proofs::FieldLaws::groups_decide))]
pub fn fields_in_range(store: &[u8]) -> bool
    requires { length store.now ≡ 128 }
    ensures { result ≡ fields_in_range store.now }
{
    settings::in_range(store) && date_in_range(store) && lengths_in_range(store)
}

fn date_in_range(store: &[u8]) -> bool
    requires { length store.now ≡ 128 }
    ensures { result ≡ all_fit store.now date_fields }
{
    let year = YEAR.fits(store, 0, 99);
    let month = MONTH.fits(store, 1, 12);
    let day = DAY.fits(store, 1, 31);
    let weekday = WEEKDAY.fits(store, 0, 6);
    let hour = HOUR.fits(store, 0, 23);
    let minute = MINUTE.fits(store, 0, 59);
    year & month & day & weekday & hour & minute
}

fn lengths_in_range(store: &[u8]) -> bool
    requires { length store.now ≡ 128 }
    ensures { result ≡ all_fit store.now length_fields }
{
    let tag = TAG_LENGTH.fits(store, 0, 16);
    let former = FORMER_LENGTH.fits(store, 0, 16);
    tag & former
}

// The mark and the packed fields. This copy and `area_of` of `schedule` are two lines each; one function over their width would be no plainer.
pub fn head_of(store: &[u8]) -> [u8; 12]
    requires { length store.now ≡ 128 }
    ensures { result ≡ take 12 store.now }
{
    let mut head = [0u8; 12];
    head.copy_from_slice(&store[..12]);
    head
}
