// The functions for the host program in C, as host/station.h declares them: each calls the function of its name in station_c, and has its clauses.
#![tactic(auto)]

ghost use Rattle.std.specs.Prelude.{◌≡◌, length};
ghost use Rattle.station.specs.Read.{reply_size};
ghost use Rattle.station_c.specs.Encode.{encode_get, encode_set, encode_power_read, encode_power_control, encode_date_read, encode_date_write, encode_serial_read, encode_model_read, encode_tag_read, encode_former_tag_read, encode_tag_write, encode_schedule_read, encode_schedule_write, encode_schedule_enable, encoding_for, EncodesForC, weekday_for};
ghost use Rattle.station_c.specs.Read.{read_into, ReadsForC};

use station_c::{encode, read};

#[unsafe(no_mangle)]
pub extern "C" fn station_encode_get(
    dest: u16,
    page: u8,
    code: u8,
    out: &mut [u8],
    size: &mut usize,
) -> u8
    ensures { EncodesForC (encoding_for (length out.old) dest (encode_get page code)) result out.old out.new size.old size.new }
{
    encode::station_encode_get(dest, page, code, out, size)
}

#[unsafe(no_mangle)]
pub extern "C" fn station_encode_set(
    dest: u16,
    page: u8,
    code: u8,
    value: u16,
    out: &mut [u8],
    size: &mut usize,
) -> u8
    ensures { EncodesForC (encoding_for (length out.old) dest (encode_set page code value)) result out.old out.new size.old size.new }
{
    encode::station_encode_set(dest, page, code, value, out, size)
}

#[unsafe(no_mangle)]
pub extern "C" fn station_encode_power_read(dest: u16, out: &mut [u8], size: &mut usize) -> u8
    ensures { EncodesForC (encoding_for (length out.old) dest encode_power_read) result out.old out.new size.old size.new }
{
    encode::station_encode_power_read(dest, out, size)
}

#[unsafe(no_mangle)]
pub extern "C" fn station_encode_power_control(
    dest: u16,
    mode: u16,
    out: &mut [u8],
    size: &mut usize,
) -> u8
    ensures { EncodesForC (encoding_for (length out.old) dest (encode_power_control mode)) result out.old out.new size.old size.new }
{
    encode::station_encode_power_control(dest, mode, out, size)
}

#[unsafe(no_mangle)]
pub extern "C" fn station_encode_date_read(dest: u16, out: &mut [u8], size: &mut usize) -> u8
    ensures { EncodesForC (encoding_for (length out.old) dest encode_date_read) result out.old out.new size.old size.new }
{
    encode::station_encode_date_read(dest, out, size)
}

#[unsafe(no_mangle)]
pub extern "C" fn station_encode_date_write(
    dest: u16,
    year: u8,
    month: u8,
    day: u8,
    weekday: u8,
    hour: u8,
    minute: u8,
    daylight: u8,
    out: &mut [u8],
    size: &mut usize,
) -> u8
    ensures { EncodesForC (encoding_for (length out.old) dest (encode_date_write year month day weekday hour minute daylight)) result out.old out.new size.old size.new }
{
    encode::station_encode_date_write(
        dest, year, month, day, weekday, hour, minute, daylight, out, size,
    )
}

// The weekday that falls on a day, Sunday 0; 7 where there is no such day.
#[unsafe(no_mangle)]
pub extern "C" fn station_weekday(year: u8, month: u8, day: u8) -> u8
    ensures { result ≡ weekday_for year month day }
{
    encode::station_weekday(year, month, day)
}

#[unsafe(no_mangle)]
pub extern "C" fn station_encode_serial_read(dest: u16, out: &mut [u8], size: &mut usize) -> u8
    ensures { EncodesForC (encoding_for (length out.old) dest encode_serial_read) result out.old out.new size.old size.new }
{
    encode::station_encode_serial_read(dest, out, size)
}

#[unsafe(no_mangle)]
pub extern "C" fn station_encode_model_read(dest: u16, out: &mut [u8], size: &mut usize) -> u8
    ensures { EncodesForC (encoding_for (length out.old) dest encode_model_read) result out.old out.new size.old size.new }
{
    encode::station_encode_model_read(dest, out, size)
}

#[unsafe(no_mangle)]
pub extern "C" fn station_encode_tag_read(dest: u16, out: &mut [u8], size: &mut usize) -> u8
    ensures { EncodesForC (encoding_for (length out.old) dest encode_tag_read) result out.old out.new size.old size.new }
{
    encode::station_encode_tag_read(dest, out, size)
}

#[unsafe(no_mangle)]
pub extern "C" fn station_encode_former_tag_read(dest: u16, out: &mut [u8], size: &mut usize) -> u8
    ensures { EncodesForC (encoding_for (length out.old) dest encode_former_tag_read) result out.old out.new size.old size.new }
{
    encode::station_encode_former_tag_read(dest, out, size)
}

#[unsafe(no_mangle)]
pub extern "C" fn station_encode_tag_write(
    dest: u16,
    tag: &[u8],
    out: &mut [u8],
    size: &mut usize,
) -> u8
    ensures { EncodesForC (encoding_for (length out.old) dest (encode_tag_write tag.now)) result out.old out.new size.old size.new }
{
    encode::station_encode_tag_write(dest, tag, out, size)
}

#[unsafe(no_mangle)]
pub extern "C" fn station_encode_schedule_read(
    dest: u16,
    program: u8,
    out: &mut [u8],
    size: &mut usize,
) -> u8
    ensures { EncodesForC (encoding_for (length out.old) dest (encode_schedule_read program)) result out.old out.new size.old size.new }
{
    encode::station_encode_schedule_read(dest, program, out, size)
}

#[unsafe(no_mangle)]
pub extern "C" fn station_encode_schedule_write(
    dest: u16,
    program: u8,
    on_hour: u8,
    on_minute: u8,
    off_hour: u8,
    off_minute: u8,
    input: u8,
    week: u8,
    flags: u8,
    out: &mut [u8],
    size: &mut usize,
) -> u8
    ensures { EncodesForC (encoding_for (length out.old) dest (encode_schedule_write program on_hour on_minute off_hour off_minute input week flags)) result out.old out.new size.old size.new }
{
    encode::station_encode_schedule_write(
        dest, program, on_hour, on_minute, off_hour, off_minute, input, week, flags, out, size,
    )
}

#[unsafe(no_mangle)]
pub extern "C" fn station_encode_schedule_enable(
    dest: u16,
    program: u8,
    enable: u8,
    out: &mut [u8],
    size: &mut usize,
) -> u8
    ensures { EncodesForC (encoding_for (length out.old) dest (encode_schedule_enable program enable)) result out.old out.new size.old size.new }
{
    encode::station_encode_schedule_enable(dest, program, enable, out, size)
}

#[unsafe(no_mangle)]
pub extern "C" fn station_read(
    packet: &[u8],
    numbers: &mut [u16],
    bytes: &mut [u8],
    count: &mut usize,
) -> u8
    ensures { ReadsForC (read_into (length numbers.old) (length bytes.old) packet.now) result numbers.old numbers.new bytes.old bytes.new count.old count.new }
{
    read::station_read(packet, numbers, bytes, count)
}

// How many bytes a packet has whose first bytes these are; 0 where that can't be told.
#[unsafe(no_mangle)]
pub extern "C" fn station_reply_size(first: &[u8]) -> usize
    ensures { result ≡ reply_size first.now }
{
    read::station_reply_size(first)
}
