// The encoder for C: the result is 0 or the refusal, and the packet's length goes to a lent place. Refused, nothing is written.
ghost use Rattle.std.specs.Prelude.{◌≡◌, length};
ghost use Rattle.messages.specs.View.{request_of};
ghost use Rattle.station.specs.Encode.{encoding};
ghost use Rattle.station_c.specs.Encode.{destination_of, encode_get, encode_set, encode_power_read, encode_power_control, encode_date_read, encode_date_write, encode_serial_read, encode_model_read, encode_tag_read, encode_former_tag_read, encode_tag_write, encode_schedule_read, encode_schedule_write, encode_schedule_enable, encoding_for, EncodesForC, weekday_for};
ghost use Rattle.station_c.specs.Inner.{TellsOf};

use messages::message::{Date, Item, Request, ScheduleRequest};
use station::encode;
use station::encode::Destination;
use wire::refusal::Refusal;

#[unsafe(no_mangle)]
pub extern "C" fn station_encode_get(
    dest: u16,
    page: u8,
    code: u8,
    out: &mut [u8],
    size: &mut usize,
) -> u8
    ensures { EncodesForC (encoding_for (length out.old) dest (encode_get page code)) result out.old out.new size.old size.new }
{
    export(dest, Request::Get { page, code }, out, size)
}

#[unsafe(no_mangle)]
pub extern "C" fn station_encode_set(
    dest: u16,
    page: u8,
    code: u8,
    value: u16,
    out: &mut [u8],
    size: &mut usize,
) -> u8
    ensures { EncodesForC (encoding_for (length out.old) dest (encode_set page code value)) result out.old out.new size.old size.new }
{
    export(dest, Request::Set { page, code, value }, out, size)
}

#[unsafe(no_mangle)]
pub extern "C" fn station_encode_power_read(dest: u16, out: &mut [u8], size: &mut usize) -> u8
    ensures { EncodesForC (encoding_for (length out.old) dest encode_power_read) result out.old out.new size.old size.new }
{
    export(dest, Request::PowerRead, out, size)
}

#[unsafe(no_mangle)]
pub extern "C" fn station_encode_power_control(
    dest: u16,
    mode: u16,
    out: &mut [u8],
    size: &mut usize,
) -> u8
    ensures { EncodesForC (encoding_for (length out.old) dest (encode_power_control mode)) result out.old out.new size.old size.new }
{
    export(dest, Request::PowerControl(mode), out, size)
}

#[unsafe(no_mangle)]
pub extern "C" fn station_encode_date_read(dest: u16, out: &mut [u8], size: &mut usize) -> u8
    ensures { EncodesForC (encoding_for (length out.old) dest encode_date_read) result out.old out.new size.old size.new }
{
    export(dest, Request::DateRead, out, size)
}

#[unsafe(no_mangle)]
pub extern "C" fn station_encode_date_write(
    dest: u16,
    year: u8,
    month: u8,
    day: u8,
    weekday: u8,
    hour: u8,
    minute: u8,
    daylight: u8,
    out: &mut [u8],
    size: &mut usize,
) -> u8
    ensures { EncodesForC (encoding_for (length out.old) dest (encode_date_write year month day weekday hour minute daylight)) result out.old out.new size.old size.new }
{
    let date = Date {
        year,
        month,
        day,
        weekday,
        hour,
        minute,
        daylight,
    };
    export(dest, Request::DateWrite(date), out, size)
}

// The weekday that falls on a day, Sunday 0; 7 where there is no such day.
#[unsafe(no_mangle)]
pub extern "C" fn station_weekday(year: u8, month: u8, day: u8) -> u8
    ensures { result ≡ weekday_for year month day }
{
    if calendar::is_day(year, month, day) {
        calendar::weekday_of(year, month, day)
    } else {
        7
    }
}

#[unsafe(no_mangle)]
pub extern "C" fn station_encode_serial_read(dest: u16, out: &mut [u8], size: &mut usize) -> u8
    ensures { EncodesForC (encoding_for (length out.old) dest encode_serial_read) result out.old out.new size.old size.new }
{
    export(dest, Request::ItemRead(Item::Serial), out, size)
}

#[unsafe(no_mangle)]
pub extern "C" fn station_encode_model_read(dest: u16, out: &mut [u8], size: &mut usize) -> u8
    ensures { EncodesForC (encoding_for (length out.old) dest encode_model_read) result out.old out.new size.old size.new }
{
    export(dest, Request::ItemRead(Item::Model), out, size)
}

#[unsafe(no_mangle)]
pub extern "C" fn station_encode_tag_read(dest: u16, out: &mut [u8], size: &mut usize) -> u8
    ensures { EncodesForC (encoding_for (length out.old) dest encode_tag_read) result out.old out.new size.old size.new }
{
    export(dest, Request::ItemRead(Item::Tag), out, size)
}

#[unsafe(no_mangle)]
pub extern "C" fn station_encode_former_tag_read(dest: u16, out: &mut [u8], size: &mut usize) -> u8
    ensures { EncodesForC (encoding_for (length out.old) dest encode_former_tag_read) result out.old out.new size.old size.new }
{
    export(dest, Request::ItemRead(Item::FormerTag), out, size)
}

#[unsafe(no_mangle)]
pub extern "C" fn station_encode_tag_write(
    dest: u16,
    tag: &[u8],
    out: &mut [u8],
    size: &mut usize,
) -> u8
    ensures { EncodesForC (encoding_for (length out.old) dest (encode_tag_write tag.now)) result out.old out.new size.old size.new }
{
    tell(encode::encode_tag_write(destination(dest), tag, out), size)
}

#[unsafe(no_mangle)]
pub extern "C" fn station_encode_schedule_read(
    dest: u16,
    program: u8,
    out: &mut [u8],
    size: &mut usize,
) -> u8
    ensures { EncodesForC (encoding_for (length out.old) dest (encode_schedule_read program)) result out.old out.new size.old size.new }
{
    export(
        dest,
        Request::Schedule(ScheduleRequest::Read(program)),
        out,
        size,
    )
}

#[unsafe(no_mangle)]
pub extern "C" fn station_encode_schedule_write(
    dest: u16,
    program: u8,
    on_hour: u8,
    on_minute: u8,
    off_hour: u8,
    off_minute: u8,
    input: u8,
    week: u8,
    flags: u8,
    out: &mut [u8],
    size: &mut usize,
) -> u8
    ensures { EncodesForC (encoding_for (length out.old) dest (encode_schedule_write program on_hour on_minute off_hour off_minute input week flags)) result out.old out.new size.old size.new }
{
    let fields = [on_hour, on_minute, off_hour, off_minute, input, week, flags];
    tell(
        encode::encode_schedule_write(destination(dest), program, fields, out),
        size,
    )
}

#[unsafe(no_mangle)]
pub extern "C" fn station_encode_schedule_enable(
    dest: u16,
    program: u8,
    enable: u8,
    out: &mut [u8],
    size: &mut usize,
) -> u8
    ensures { EncodesForC (encoding_for (length out.old) dest (encode_schedule_enable program enable)) result out.old out.new size.old size.new }
{
    export(
        dest,
        Request::Schedule(ScheduleRequest::Enable(program, enable)),
        out,
        size,
    )
}

// Any request.
fn export(dest: u16, request: Request, out: &mut [u8], size: &mut usize) -> u8
    ensures { EncodesForC (encoding (length out.old) (destination_of dest) (request_of request)) result out.old out.new size.old size.new }
{
    tell(
        encode::encode_request(destination(dest), request, out),
        size,
    )
}

// The destination of a number: 256 is ALL, any other an ID.
#[tactic(auto, unfolding(crate::specs::Encode::destination_of))]
fn destination(number: u16) -> Destination
    ensures { result ≡ destination_of number }
{
    if number == 256 {
        Destination::All
    } else {
        Destination::Id(number)
    }
}

// 0, and the length in its place; or the refusal, and the place untouched.
fn tell(e: Result<usize, Refusal>, size: &mut usize) -> u8
    ensures { TellsOf e result size.old size.new }
{
    match e {
        Ok(n) => {
            *size = n;
            0
        }
        Err(refusal) => refusal.number(),
    }
}
