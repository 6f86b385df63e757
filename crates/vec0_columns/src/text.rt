//! Reading the parts of a column text.
ghost use Rattle.std.specs.Prelude.{◌≡◌, true, IfOk};
ghost use Rattle.std.specs.List.{list_all};
ghost use Rattle.grammar.specs.inner.ReaderResults.{rest_of, Gives};
ghost use Rattle.row_model.specs.declared.schema.Kind.{Kind};
ghost use Rattle.grammar.specs.inner.Reading.{read, starts};
ghost use Rattle.vec0_columns.specs.ColumnGrammar.{has_name, int8, bits, chunk_size, metric, integer_word, boolean_word};
ghost use Rattle.vec0_columns.specs.inner.FactoredColumns.{key, integer_kind, text_kind, kind, scalar_kind, text_or_boolean, auxiliary_kind, factored_arg, factored_columns};

use grammar::{Item, Reader, Stop, listed};
use row_model::{Kind, Metric};
use std::alloc::Global;
use vec_base::{List, Txt};

/// The kind of a column as it is spelled: of a vector the number of its elements and its metric, where one is given.
#[derive(Clone, Copy, Debug)]
pub enum Spelled {
    Int8(u64, Option<Metric>),
    Bits(u64, Option<Metric>),
    Plain(Kind),
}

/// One of the parts of a column text: a column, by its name in lower case, or the size of a chunk.
#[derive(Debug, Drop)]
pub enum Arg {
    Column(Txt, Spelled),
    ChunkSize(u64),
}

/// Reads a metric.
#[tactic(auto, unfolding(crate::specs::ColumnGrammar::metric))]
fn metric(reader: &mut Reader<'_>) -> Result<Metric, Stop>
    ensures { Gives (λ x. x) result (read metric (rest_of reader.old)) (rest_of reader.new) }
{
    reader.word(b"DISTANCE_METRIC")?;
    reader.mark(b"=")?;
    if reader.at_word(b"L1") {
        reader.word(b"L1")?;
        Ok(Metric::L1)
    } else {
        reader.word(b"L2")?;
        Ok(Metric::L2)
    }
}

/// Reads a vector of bytes.
#[tactic(auto, unfolding(crate::specs::ColumnGrammar::int8, crate::specs::ColumnGrammar::metric))]
fn int8(reader: &mut Reader<'_>) -> Result<Spelled, Stop>
    ensures { Gives (λ x. x) result (read int8 (rest_of reader.old)) (rest_of reader.new) }
{
    reader.word(b"INT8")?;
    reader.mark(b"[")?;
    let width = reader.number()?;
    reader.mark(b"]")?;
    if reader.at_word(b"DISTANCE_METRIC") {
        let metric = metric(reader)?;
        Ok(Spelled::Int8(width, Some(metric)))
    } else {
        Ok(Spelled::Int8(width, None))
    }
}

/// Reads a vector of bits.
#[tactic(auto, unfolding(crate::specs::ColumnGrammar::bits, crate::specs::ColumnGrammar::metric))]
fn bits(reader: &mut Reader<'_>) -> Result<Spelled, Stop>
    ensures { Gives (λ x. x) result (read bits (rest_of reader.old)) (rest_of reader.new) }
{
    reader.word(b"BIT")?;
    reader.mark(b"[")?;
    let width = reader.number()?;
    reader.mark(b"]")?;
    if reader.at_word(b"DISTANCE_METRIC") {
        let metric = metric(reader)?;
        Ok(Spelled::Bits(width, Some(metric)))
    } else {
        Ok(Spelled::Bits(width, None))
    }
}

/// Whether INTEGER or INT is at hand.
#[tactic(auto, using(grammar::proofs::Places::next_more), unfolding(crate::specs::ColumnGrammar::integer_word))]
fn at_integer(reader: &Reader<'_>) -> bool
    ensures { result ≡ starts integer_word (rest_of reader.now) }
{
    reader.at_word(b"INTEGER") || reader.at_word(b"INT")
}

/// Reads INTEGER or INT.
#[tactic(auto, unfolding(crate::specs::ColumnGrammar::integer_word))]
fn integer_word(reader: &mut Reader<'_>) -> Result<(), Stop>
    ensures { Gives (λ x. x) result (read integer_word (rest_of reader.old)) (rest_of reader.new) }
{
    if reader.at_word(b"INTEGER") {
        reader.word(b"INTEGER")
    } else {
        reader.word(b"INT")
    }
}

/// Reads BOOLEAN or BOOL.
#[tactic(auto, unfolding(crate::specs::ColumnGrammar::boolean_word))]
fn boolean_word(reader: &mut Reader<'_>) -> Result<(), Stop>
    ensures { Gives (λ x. x) result (read boolean_word (rest_of reader.old)) (rest_of reader.new) }
{
    if reader.at_word(b"BOOLEAN") {
        reader.word(b"BOOLEAN")
    } else {
        reader.word(b"BOOL")
    }
}

/// Whether a key is at hand, whatever the kinds of the keys.
#[tactic(auto, using(grammar::proofs::Places::next_more), unfolding(crate::specs::inner::FactoredColumns::key))]
fn at_key(reader: &Reader<'_>) -> bool
    ensures { (primary partition : Kind) → result ≡ starts (key primary partition) (rest_of reader.now) }
{
    reader.at_word(b"PRIMARY") || reader.at_word(b"PARTITION")
}

/// Reads a key, which makes the column one of the two kinds.
#[tactic(auto, unfolding(crate::specs::inner::FactoredColumns::key))]
fn key(reader: &mut Reader<'_>, primary: Kind, partition: Kind) -> Result<Spelled, Stop>
    ensures { Gives (λ x. x) result (read (key primary partition) (rest_of reader.old)) (rest_of reader.new) }
{
    if reader.at_word(b"PRIMARY") {
        reader.word(b"PRIMARY")?;
        reader.word(b"KEY")?;
        Ok(Spelled::Plain(primary))
    } else {
        reader.word(b"PARTITION")?;
        reader.word(b"KEY")?;
        Ok(Spelled::Plain(partition))
    }
}

/// Reads the kind of a column of integers.
#[tactic(auto, unfolding(crate::specs::inner::FactoredColumns::integer_kind))]
fn integer_kind(reader: &mut Reader<'_>) -> Result<Spelled, Stop>
    ensures { Gives (λ x. x) result (read integer_kind (rest_of reader.old)) (rest_of reader.new) }
{
    integer_word(reader)?;
    if at_key(reader) {
        key(reader, Kind::IntKey, Kind::IntPartition)
    } else {
        Ok(Spelled::Plain(Kind::IntMeta))
    }
}

/// Reads the kind of a column of texts.
#[tactic(auto, unfolding(crate::specs::inner::FactoredColumns::text_kind))]
fn text_kind(reader: &mut Reader<'_>) -> Result<Spelled, Stop>
    ensures { Gives (λ x. x) result (read text_kind (rest_of reader.old)) (rest_of reader.new) }
{
    reader.word(b"TEXT")?;
    if at_key(reader) {
        key(reader, Kind::TextKey, Kind::TextPartition)
    } else {
        Ok(Spelled::Plain(Kind::TextMeta))
    }
}

/// Reads the kind of a column of texts or truth values.
#[tactic(auto, unfolding(crate::specs::inner::FactoredColumns::text_or_boolean, crate::specs::inner::FactoredColumns::text_kind))]
fn text_or_boolean(reader: &mut Reader<'_>) -> Result<Spelled, Stop>
    ensures { Gives (λ x. x) result (read text_or_boolean (rest_of reader.old)) (rest_of reader.new) }
{
    if reader.at_word(b"TEXT") {
        text_kind(reader)
    } else {
        boolean_word(reader)?;
        Ok(Spelled::Plain(Kind::BoolMeta))
    }
}

/// Reads the kind of a column of integers, texts or truth values.
#[tactic(auto, unfolding(crate::specs::inner::FactoredColumns::scalar_kind, crate::specs::inner::FactoredColumns::integer_kind, crate::specs::ColumnGrammar::integer_word))]
fn scalar_kind(reader: &mut Reader<'_>) -> Result<Spelled, Stop>
    ensures { Gives (λ x. x) result (read scalar_kind (rest_of reader.old)) (rest_of reader.new) }
{
    if at_integer(reader) {
        integer_kind(reader)
    } else {
        text_or_boolean(reader)
    }
}

/// Reads the kind of a column that is no auxiliary one.
#[tactic(auto, unfolding(crate::specs::inner::FactoredColumns::kind, crate::specs::ColumnGrammar::int8, crate::specs::ColumnGrammar::bits))]
fn kind(reader: &mut Reader<'_>) -> Result<Spelled, Stop>
    ensures { Gives (λ x. x) result (read kind (rest_of reader.old)) (rest_of reader.new) }
{
    if reader.at_word(b"INT8") {
        int8(reader)
    } else if reader.at_word(b"BIT") {
        bits(reader)
    } else {
        scalar_kind(reader)
    }
}

/// Reads the kind of an auxiliary column.
#[tactic(auto, unfolding(crate::specs::inner::FactoredColumns::auxiliary_kind))]
fn auxiliary_kind(reader: &mut Reader<'_>) -> Result<Spelled, Stop>
    ensures { Gives (λ x. x) result (read auxiliary_kind (rest_of reader.old)) (rest_of reader.new) }
{
    if at_integer(reader) {
        integer_word(reader)?;
        Ok(Spelled::Plain(Kind::IntAux))
    } else if reader.at_word(b"TEXT") {
        reader.word(b"TEXT")?;
        Ok(Spelled::Plain(Kind::TextAux))
    } else {
        reader.word(b"BLOB")?;
        Ok(Spelled::Plain(Kind::BlobAux))
    }
}

/// Reads the size of a chunk.
#[tactic(auto, unfolding(crate::specs::ColumnGrammar::chunk_size))]
fn chunk_size(reader: &mut Reader<'_>) -> Result<Arg, Stop>
    ensures reads { Gives (λ x. x) result (read chunk_size (rest_of reader.old)) (rest_of reader.new) }
    ensures named { IfOk result (λ a. has_name a ≡ true) }
{
    reader.word(b"CHUNK_SIZE")?;
    reader.mark(b"=")?;
    let size = reader.number()?;
    Ok(Arg::ChunkSize(size))
}

/// Reads one of the parts.
#[tactic(auto, unfolding(crate::specs::inner::FactoredColumns::factored_arg, crate::specs::ColumnGrammar::chunk_size))]
fn argument(reader: &mut Reader<'_>) -> Result<Arg, Stop>
    ensures reads { Gives (λ x. x) result (read factored_arg (rest_of reader.old)) (rest_of reader.new) }
    ensures named { IfOk result (λ a. has_name a ≡ true) }
{
    if reader.at_word(b"CHUNK_SIZE") {
        chunk_size(reader)
    } else if reader.at_mark(b"+") {
        reader.mark(b"+")?;
        let name = reader.name()?;
        let spelled = auxiliary_kind(reader)?;
        Ok(Arg::Column(name, spelled))
    } else {
        let name = reader.name()?;
        let spelled = kind(reader)?;
        Ok(Arg::Column(name, spelled))
    }
}

impl<'a> Item<'a> for Arg {
    ghost use Rattle.std.specs.Prelude.{codes};
    ghost use Rattle.grammar.specs.Grammar.{sign};
    ghost use Rattle.vec0_columns.specs.ColumnGrammar.{has_name};
    ghost use Rattle.vec0_columns.specs.inner.FactoredColumns.{factored_arg};

    ghost part = { factored_arg };

    ghost well_formed = { has_name };

    ghost between = { sign (codes ",") };

    fn read(_alloc: Global, reader: &mut Reader<'a>) -> Result<Arg, Stop> {
        argument(reader)
    }

    fn at_next(reader: &Reader<'a>) -> bool {
        reader.at_mark(b",")
    }

    fn pass(reader: &mut Reader<'a>) -> Result<(), Stop> {
        reader.mark(b",")
    }
}

/// Reads parts with commas between them.
#[tactic(auto, unfolding(crate::specs::inner::FactoredColumns::factored_columns))]
pub fn columns(alloc: Global, reader: &mut Reader<'_>) -> Result<List<Arg>, Stop>
    ensures reads { Gives (λ v. v) result (read factored_columns (rest_of reader.old)) (rest_of reader.new) }
    ensures named { IfOk result (λ v. list_all has_name v ≡ true) }
{
    listed(alloc, reader)
}
