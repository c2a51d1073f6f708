// Power, date and tags in the store.
ghost use Rattle.std.specs.Prelude.{true, ◌≡◌, ◌+◌, ◌^◌, ◌≤◌, ◌<◌, length, take, drop};
ghost use Rattle.bitfield.specs.Field.{get_field, put_field};
ghost use Rattle.plan.specs.Plans.{stores_of};
ghost use Rattle.store.specs.Fields.{field_stores, read};
ghost use Rattle.store.specs.Layout.{power, tag_length, former_length};
ghost use Rattle.store.specs.Inner.{DateFits};
ghost use Rattle.store.specs.Contents.{is_on, date_of, is_storable, with_date, date_stores, tag_of, former_tag_of, with_lengths, tag_stores};
ghost use Rattle.wire.specs.Digits.{octets_of, padded};

use crate::fields::{self, Field};
use messages::message::Date;
use plan::Plan;
use wire::digits::Octets;

// Where the tag and the former tag begin.
const TAG: usize = 12;

const FORMER_TAG: usize = 28;

// Whether the power is on.
#[tactic(auto, unfolding(crate::specs::Contents::is_on))]
pub fn is_on(store: &[u8]) -> bool
    requires { length store.now ≡ 128 }
    ensures { result ≡ is_on store.now }
{
    fields::POWER.get(store) == 1
}

// What power on (1) or standby (0) stores.
#[tactic(auto, unfolding(crate::specs::Fields::field_stores))]
pub fn power_stores(store: &[u8], on: u16) -> Plan
    requires { (length store.now ≡ 128) × (on ≤ 1) }
    ensures { stores_of result ≡ field_stores store.now power on }
{
    fields::POWER.stores(store, on)
}

// The date in the store.
#[tactic(auto, unfolding(crate::specs::Contents::date_of))]
pub fn date_of(store: &[u8]) -> Date
    requires { length store.now ≡ 128 }
    ensures { result ≡ date_of store.now }
{
    Date {
        year: fields::YEAR.get(store) as u8,
        month: fields::MONTH.get(store) as u8,
        day: fields::DAY.get(store) as u8,
        weekday: fields::WEEKDAY.get(store) as u8,
        hour: fields::HOUR.get(store) as u8,
        minute: fields::MINUTE.get(store) as u8,
        daylight: 0,
    }
}

// What a date write stores.
pub fn date_stores(store: &[u8], date: Date) -> Plan
    requires store_len { length store.now ≡ 128 }
    requires date_value { is_storable date ≡ true }
    ensures { stores_of result ≡ date_stores store.now date }
{
    let head = with_date(fields::head_of(store), date);
    Plan::empty().with_range(6, &head[6..11])
}

// The head with a date in its six fields.
#[tactic(auto, unfolding(crate::specs::Contents::with_date))]
fn with_date(head: [u8; 12], date: Date) -> [u8; 12]
    requires { DateFits date }
    ensures { result ≡ with_date head date }
{
    let h = with_field(head, fields::YEAR, date.year as u16);
    let h = with_field(h, fields::MONTH, date.month as u16);
    let h = with_field(h, fields::DAY, date.day as u16);
    let h = with_field(h, fields::WEEKDAY, date.weekday as u16);
    let h = with_field(h, fields::HOUR, date.hour as u16);
    with_field(h, fields::MINUTE, date.minute as u16)
}

// The head with a value in one of its fields.
fn with_field(head: [u8; 12], field: Field, value: u16) -> [u8; 12]
    requires { (field.at + field.width ≤ 96) × (value < 2 ^ field.width) }
    ensures { result ≡ put_field head field.at field.width value }
{
    let mut next = head;
    bitfield::put(&mut next, field.at, field.width, value);
    next
}

// The tag. This and the former tag are a line each over `item_at`; a parameter for the two fields would be no plainer.
#[tactic(auto, unfolding(crate::specs::Contents::tag_of))]
pub fn tag_of(store: &[u8]) -> Octets
    requires { (length store.now ≡ 128) × (read store.now tag_length ≤ 16) }
    ensures { (octets_of result ≡ tag_of store.now) × (result.count ≤ 16) }
{
    item_at(store, TAG, fields::TAG_LENGTH)
}

// The former tag.
#[tactic(auto, unfolding(crate::specs::Contents::former_tag_of))]
pub fn former_tag_of(store: &[u8]) -> Octets
    requires { (length store.now ≡ 128) × (read store.now former_length ≤ 16) }
    ensures { (octets_of result ≡ former_tag_of store.now) × (result.count ≤ 16) }
{
    item_at(store, FORMER_TAG, fields::FORMER_LENGTH)
}

// What a tag write stores.
pub fn tag_stores(store: &[u8], tag: &[u8]) -> Plan
    requires { (length store.now ≡ 128) × (length tag.now ≤ 16) }
    ensures { stores_of result ≡ tag_stores store.now tag.now }
{
    let head = with_lengths(store, tag.len() as u16);
    let new = padded_tag(tag);
    let former = Plan::empty().with_range(FORMER_TAG as u8, &store[TAG..FORMER_TAG]);
    let both = former.with_range(TAG as u8, &new);
    both.with_range(10, &head[10..12])
}

// The head with a tag's length, and the length before it as the former one.
fn with_lengths(store: &[u8], count: u16) -> [u8; 12]
    requires { (length store.now ≡ 128) × (count ≤ 16) }
    ensures { result ≡ take 12 (with_lengths store.now count) }
{
    let old = fields::TAG_LENGTH.get(store);
    let head = with_field(fields::head_of(store), fields::FORMER_LENGTH, old);
    with_field(head, fields::TAG_LENGTH, count)
}

// The bytes from a place on, as many as a field says.
fn item_at(store: &[u8], from: usize, count: Field) -> Octets
    requires { (length store.now ≡ 128) × (from + 16 ≤ 128) × (get_field store.now count.at count.width ≤ 16) }
    ensures { (octets_of result ≡ take (get_field store.now count.at count.width) (drop from store.now)) × (result.count ≤ 16) }
{
    let mut bytes = [0u8; 16];
    bytes.copy_from_slice(&store[from..from + 16]);
    Octets {
        bytes,
        count: count.get(store) as u8,
    }
}

// A tag, and zeros past it.
#[tactic(auto, unfolding(wire::specs::Digits::padded))]
fn padded_tag(tag: &[u8]) -> [u8; 16]
    requires { length tag.now ≤ 16 }
    ensures { result ≡ padded tag.now }
{
    Octets::of(tag).bytes
}
