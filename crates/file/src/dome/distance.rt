// Points from file words, and how far they are from one another.
ghost use Rattle.std.specs.Prelude.{◌≡◌, ◌<◌, ◌≤◌};
ghost use Rattle.plex.specs.Distance.{square_between, distance², close_enough};
ghost use Rattle.fileword.specs.Files.{Coordinate};
ghost use Rattle.fileword.specs.Layout.{coordinate, point_of};
ghost use Rattle.file.specs.Points.{meant};

use super::Point;
use fileword::layout::{lower_of, upper_of};

// The coordinate that 14 bits of two's complement give.
fn coordinate_of(bits: u32) -> i32
    requires { bits < 16384 }
    ensures { result ≡ coordinate bits }
{
    if bits < 8192 {
        bits as i32
    } else {
        bits as i32 - 16384
    }
}

// The square of the difference of two coordinates.
fn square_of_gap(a: i32, b: i32) -> u32
    requires { (Coordinate a) × (Coordinate b) }
    ensures value { result ≡ square_between a b }
    ensures bound { result ≤ 268402689 }
{
    let gap = a.abs_diff(b);
    gap * gap
}

impl Point {
    // The point of two words: x and y, then z. By a name and not by `From`, which would not say which word is which.
    pub(crate) fn from_words(xy: u32, z: u32) -> Point
        ensures { meant result ≡ point_of xy z }
    {
        Point {
            x: coordinate_of(upper_of(xy)),
            y: coordinate_of(lower_of(xy)),
            z: coordinate_of(lower_of(z)),
        }
    }

    // The square of the distance between two points.
    pub(crate) fn distance_squared(self, other: Point) -> u32
        ensures { result ≡ distance² (meant self) (meant other) }
    {
        square_of_gap(self.x, other.x)
            + square_of_gap(self.y, other.y)
            + square_of_gap(self.z, other.z)
    }
}

// Whether two squared distances differ by at most the tolerance.
pub(crate) fn is_close(tolerance: u32, planned: u32, seen: u32) -> bool
    ensures { result ≡ close_enough tolerance planned seen }
{
    planned.abs_diff(seen) <= tolerance
}
