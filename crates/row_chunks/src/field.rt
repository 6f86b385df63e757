//! Values that are lent.
ghost use Rattle.std.specs.Prelude.{◌≡◌};
ghost use Rattle.row_model.specs.Values.{side_bytes};
ghost use Rattle.row_chunks.specs.Fields.{value_shown};

/// A value that is lent.
#[derive(Clone, Copy, Debug)]
pub enum Field<'a> {
    Null,
    Int(i64),
    Text(&'a str),
    Blob(&'a [u8]),
}

impl Field<'_> {
    /// The bytes of a text or a blob.
    #[inline]
    pub fn side_bytes(self) -> u64
        ensures { result ≡ side_bytes (value_shown self.entry) }
    {
        match self {
            Field::Text(text) => text.len() as u64,
            Field::Blob(bytes) => bytes.len() as u64,
            Field::Null => 0,
            Field::Int(_) => 0,
        }
    }
}
