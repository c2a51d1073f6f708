// The seven programs of a store, each an array of its fields, decoded from bytes 44 to 78 and packed into them.
ghost use Rattle.std.specs.Prelude.{◌≡◌, ◌+◌, ◌*◌, ◌^◌, ◌≤◌, ◌<◌, length};
ghost use Rattle.bitfield.specs.Field.{get_field, put_field};
ghost use Rattle.plan.specs.Plans.{stores_of};
ghost use Rattle.schedule.specs.Programs.{program_of, programs_of, with_fields, parts, program_stores, enable_stores, is_time, is_program, programs_in_range, unused_programs};
ghost use Rattle.store.specs.Inner.{InStore};
ghost use Rattle.schedule.specs.Inner.{InArea, area_of, with_programs, Fit, AllFit};

use plan::Plan;
use store::fields::Field;

// Where the programs begin: the first byte and the first bit.
pub const FIRST_BYTE: usize = 44;

const FIRST_BIT: usize = 352;

// The seven programs of a store.
pub fn programs_of(store: &[u8]) -> [[u8; 7]; 7]
    requires { length store.now ≡ 128 }
    ensures { result ≡ programs_of store.now }
{
    let mut programs = [[0u8; 7]; 7];
    for k in 0..7 {
        programs[k] = program_at(store, k);
    }
    programs
}

// What a store with program k replaced stores: the five bytes of that program.
pub fn program_stores(store: &[u8], k: usize, fields: [u8; 7]) -> Plan
    requires { (length store.now ≡ 128) × (k < 7) × Fit fields }
    ensures { stores_of result ≡ program_stores store.now k fields }
{
    let mut programs = programs_of(store);
    programs[k] = fields;
    let area = packed(store, programs);
    Plan::empty().with_range((FIRST_BYTE + 5 * k) as u8, &area[5 * k..5 * k + 5])
}

// What enabling (1) or disabling (0) program k stores: the byte with FL bit 2.
#[tactic(auto, unfolding(store::specs::Fields::field_stores))]
pub fn enable_stores(store: &[u8], k: usize, enable: u16) -> Plan
    requires { (length store.now ≡ 128) × (k < 7) × (enable ≤ 1) }
    ensures { stores_of result ≡ enable_stores store.now k enable }
{
    let enabled = Field {
        at: FIRST_BIT + 40 * k + 31,
        width: 1,
    };
    enabled.stores(store, enable)
}

// Whether each program of a store holds what it may hold.
pub fn in_range(store: &[u8]) -> bool
    requires { length store.now ≡ 128 }
    ensures { result ≡ programs_in_range store.now }
{
    (0..7).all(|k| is_program_at(store, k))
}

// The bytes of seven unused programs.
pub fn unused() -> [u8; 35]
    ensures { result ≡ unused_programs }
{
    // 24:60 to 24:60, and nothing else.
    let program = [0xC7, 0x98, 0xF0, 0, 0];
    let mut area = [0u8; 35];
    for k in 0..7 {
        area[5 * k..5 * k + 5].copy_from_slice(&program);
    }
    area
}

// Whether an hour and a minute are a time of day, or 24 and 60, which mean not set.
pub fn is_time(hour: u8, minute: u8) -> bool
    ensures { result ≡ is_time hour minute }
{
    if hour == 24 {
        return minute == 60;
    }
    (hour < 24) & (minute < 60)
}

// Whether both times of program k may be held.
fn is_program_at(store: &[u8], k: usize) -> bool
    requires { (length store.now ≡ 128) × (k < 7) }
    ensures { result ≡ is_program (program_of store.now k) }
{
    let at = FIRST_BIT + 40 * k;
    is_time_at(store, at) & is_time_at(store, at + 11)
}

// Whether the five bits of an hour and the six bits of a minute behind it may be held. They are read at once, since a board does so at every byte.
fn is_time_at(store: &[u8], at: usize) -> bool
    requires { (length store.now ≡ 128) × InStore at 11 }
    ensures { result ≡ is_time (get_field store.now at 5) (get_field store.now (at + 5) 6) }
{
    let v = bitfield::get(store, at, 11);
    is_time((v / 64) as u8, (v % 64) as u8)
}

// The fields of program k.
fn program_at(store: &[u8], k: usize) -> [u8; 7]
    requires { (length store.now ≡ 128) × (k < 7) }
    ensures { result ≡ program_of store.now k }
{
    let at = FIRST_BIT + 40 * k;
    [
        field_at(store, at, 5),
        field_at(store, at + 5, 6),
        field_at(store, at + 11, 5),
        field_at(store, at + 16, 6),
        field_at(store, at + 22, 2),
        field_at(store, at + 24, 7),
        field_at(store, at + 31, 3),
    ]
}

// Bytes 44 to 78 with these programs; their spare bits as they were.
fn packed(store: &[u8], programs: [[u8; 7]; 7]) -> [u8; 35]
    requires { (length store.now ≡ 128) × AllFit programs }
    ensures { result ≡ area_of (with_programs store.now programs) }
{
    let mut area = area_of(store);
    for (k, fields) in programs.iter().enumerate() {
        put_program(&mut area, k, *fields);
    }
    area
}

// Bytes 44 to 78, copied as `head_of` of `store` copies; one function over the width would be no plainer.
#[tactic(auto, unfolding(crate::specs::Inner::area_of))]
fn area_of(store: &[u8]) -> [u8; 35]
    requires { length store.now ≡ 128 }
    ensures { result ≡ area_of store.now }
{
    let mut area = [0u8; 35];
    area.copy_from_slice(&store[FIRST_BYTE..FIRST_BYTE + 35]);
    area
}

// Puts the fields of program k.
fn put_program(area: &mut [u8; 35], k: usize, fields: [u8; 7])
    requires { (k < 7) × Fit fields }
    ensures { area.new ≡ with_fields area.old (40 * k) 0 parts fields }
{
    let at = 40 * k;
    put_field(area, at, 5, fields[0]);
    put_field(area, at + 5, 6, fields[1]);
    put_field(area, at + 11, 5, fields[2]);
    put_field(area, at + 16, 6, fields[3]);
    put_field(area, at + 22, 2, fields[4]);
    put_field(area, at + 24, 7, fields[5]);
    put_field(area, at + 31, 3, fields[6]);
}

// A field of at most eight bits.
fn field_at(store: &[u8], at: usize, width: usize) -> u8
    requires { (length store.now ≡ 128) × InStore at width × (width ≤ 8) }
    ensures { result ≡ get_field store.now at width }
{
    bitfield::get(store, at, width) as u8
}

fn put_field(area: &mut [u8; 35], at: usize, width: usize, value: u8)
    requires { InArea at width × (value < 2 ^ width) }
    ensures { area.new ≡ put_field area.old at width value }
{
    bitfield::put(area, at, width, value as u16);
}
