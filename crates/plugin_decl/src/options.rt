ghost use Rattle.std.specs.Prelude.{◌≡◌, ◌<◌, ◌^◌, pos};

/// What an instance is told of the block's length, as integers: `bufsz:maxBlockLength` and `bufsz:minBlockLength`.
#[derive(Clone, Copy)]
pub struct Options {
    pub most: i32,
    pub least: i32,
}

/// The options for blocks of `block` frames, all of which have this length.
pub fn options_of(block: u32) -> Options
    requires { block < 2 ^ 31 }
    ensures most { result.most ≡ pos block }
    ensures least { result.least ≡ pos block }
{
    let frames = block as i32;
    Options {
        most: frames,
        least: frames,
    }
}
