// What is left of a file.
ghost use Rattle.std.specs.Prelude.{◌+◌, ◌^◌, ◌<◌, length};

// The bytes from an offset of the file to its end.
#[derive(Clone, Copy)]
pub(crate) struct Rest<'a> {
    pub(crate) bytes: &'a [u8],
    pub(crate) offset: usize,
    ghost in_file: { offset + length bytes.now < 2 ^ 63 },
}
