// A point of the dome.
ghost use Rattle.fileword.specs.Files.{Coordinate};

#[derive(Clone, Copy)]
pub(crate) struct Point {
    x: i32,
    y: i32,
    z: i32,
    ghost across: { Coordinate x },
    ghost along: { Coordinate y },
    ghost up: { Coordinate z },
}

pub(crate) mod distance;
