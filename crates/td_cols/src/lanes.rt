//! Lanes whose width and sign stand in their type.
ghost use Rattle.std.specs.Prelude.{◌≡◌, length, IsTrue};
ghost use Rattle.td_cols.specs.Lanes.{is_lane_width, lane_least, lane_most, fits_lane};
ghost use Rattle.td_cols.specs.Spelling.{spelling_in, number_in};

use crate::bytes::{read_number, write_number};

/// The least number of a lane of so many bytes.
#[tactic(auto, unfolding(crate::specs::Lanes::lane_least))]
fn least(width: usize, signed: bool) -> i128
    requires { IsTrue (is_lane_width width) }
    ensures { result ≡ lane_least width signed }
{
    if signed {
        i128::MIN >> (128 - 8 * width)
    } else {
        0
    }
}

/// The most number of a lane of so many bytes, and of an `i128`.
#[tactic(auto, unfolding(crate::specs::Lanes::lane_most))]
fn most(width: usize, signed: bool) -> i128
    requires { IsTrue (is_lane_width width) }
    ensures { result ≡ lane_most width signed }
{
    let bits = if signed { 8 * width - 1 } else { 8 * width };
    i128::MAX >> (127 - bits.min(127))
}

/// A type of lane: numbers of `W` bytes each, 1, 2, 4, 8 or 16, in two's complement if `S`. It names the calls
/// below, none of which takes a value of it.
#[derive(Drop)]
pub struct Lane<const W: usize, const S: bool>;

impl<const W: usize, const S: bool> Lane<W, S> {
    /// Whether `v` is a number of the lane: in the two's complement range of its bits, or from 0 to its most.
    #[tactic(auto, unfolding(crate::specs::Lanes::fits_lane))]
    pub fn fits(v: i128) -> bool
        requires { IsTrue (is_lane_width W) }
        ensures { result ≡ fits_lane W S v }
    {
        least(W, S) <= v && v <= most(W, S)
    }

    /// Writes the one spelling of `v`, which fits, over `out`, which has `W` bytes.
    pub fn put(v: i128, out: &mut [u8])
        requires width { IsTrue (is_lane_width W) }
        requires fits { IsTrue (fits_lane W S v) }
        requires room { length out.old ≡ W }
        ensures spelled { out.new ≡ spelling_in W v }
        ensures got { number_in S out.new ≡ v }
    {
        write_number(v, out);
    }

    /// The number that `bytes` spell, of which there are `W`. An `i128` holds the unsigned number of 16 bytes
    /// only below 2^127; from there on it is the negative number of the same bits, which doesn't fit.
    pub fn get(bytes: &[u8]) -> i128
        requires width { IsTrue (is_lane_width W) }
        requires room { length bytes.now ≡ W }
        ensures number { result ≡ number_in S bytes.now }
        ensures put { spelling_in W result ≡ bytes.now }
    {
        read_number(bytes, S)
    }
}
