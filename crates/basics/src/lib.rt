//! What every crate may stand on: numbers and paths in texts, the Gregorian calendar, and texts, lists and maps that own what they hold.
//!
//! The functions of the calendar are fast, and are proved to give what counting by the lengths of years and months gives. Each owned
//! type is a collection of std under a type of its own, so that contracts compare texts by their bytes, lists by their items and maps
//! as finite maps without an order. Each is made from std's collection and gives it back, and takes no memory for that.
#![tactic(auto)]

mod days;
mod map;
mod number;

pub use days::{CalendarDate, date_of, day_number, is_leap_year, month_length, weekday};
pub use map::{Items, Text, TextMap};
pub use number::{
    after_mark, before_mark, cut, has_parts, i8_in, i64_in, is_numeral, u8_of_digits, u16_of_digits,
};
