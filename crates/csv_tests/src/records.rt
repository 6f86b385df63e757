//! Records that are read and written.

use csv_records::{read_records, write_record};
use std::alloc::Global;
use std::test::Fail;
use vec_base::{List, Memory, Txt};

/// The fields of a record, each in brackets.
fn put_record(to: &mut String, record: &[Txt]) -> Result<(), Memory> {
    for field in record {
        to.push_str("[")?;
        to.push_str(field.as_text())?;
        to.push_str("]")?;
    }
    Ok(())
}

/// The good records of a text, each with `;` behind it, and then `refused` where one is.
fn shown(alloc: Global, text: &[u8]) -> Result<String, Memory> {
    let records = read_records(alloc, text)?;
    let mut shown = String::new(alloc);
    for record in records.good.as_slice() {
        put_record(&mut shown, record.as_slice())?;
        shown.push_str(";")?;
    }
    if records.refused {
        shown.push_str("refused")?;
    }
    Ok(shown)
}

/// Whether a text has these good records and this end.
fn reads_as(alloc: Global, text: &[u8], wanted: &str) -> Result<bool, Fail> {
    let shown = shown(alloc, text).or(Err("no memory"))?;
    Ok(shown.as_str() == wanted)
}

#[test]
fn records_are_cut(rt: HostRuntime) -> Result<(), Fail> {
    let alloc = rt.alloc();
    assert!(rt;
        reads_as(
            alloc,
            b"id,v\n1,\"[1,2]\"\n2,[3]\n",
            "[id][v];[1][[1,2]];[2][[3]];"
        )?
    );
    assert!(rt; reads_as(alloc, b"id,v\r\n1,\r\n\r\n2,x", "[id][v];[1][];[2][x];")?);
    assert!(rt; reads_as(alloc, b"t\n\"a \"\"b\"\"\nc, d\"\n", "[t];[a \"b\"\nc, d];")?);
    assert!(rt; reads_as(alloc, b"id\n", "[id];")?);
    Ok(())
}

#[test]
fn a_quote_inside_a_field_is_a_byte_of_it(rt: HostRuntime) -> Result<(), Fail> {
    let alloc = rt.alloc();
    assert!(rt; reads_as(alloc, b"a,b\n5\" disk,\"x\"y\n", "[a][b];[5\" disk][xy];")?);
    assert!(rt; reads_as(alloc, b"a,b\n1,\"2\n3,4\n", "[a][b];[1][2\n3,4\n];")?);
    Ok(())
}

#[test]
fn records_of_another_width_are_refused(rt: HostRuntime) -> Result<(), Fail> {
    let alloc = rt.alloc();
    assert!(rt; reads_as(alloc, b"a,b\n1,2\n3\n4,5\n", "[a][b];[1][2];refused")?);
    assert!(rt; reads_as(alloc, b"a,b\n1,2,3\n", "[a][b];refused")?);
    assert!(rt; reads_as(alloc, b"a\n1,2\n", "[a];refused")?);
    Ok(())
}

#[test]
fn bytes_that_are_no_text_are_refused(rt: HostRuntime) -> Result<(), Fail> {
    let alloc = rt.alloc();
    assert!(rt; reads_as(alloc, b"a\n1\n\xff\n2\n", "[a];[1];refused")?);
    assert!(rt; reads_as(alloc, b"\xc3\n1\n", "refused")?);
    assert!(rt; reads_as(alloc, b"\xc3,\xa4\n1,2\n", "refused")?);
    assert!(rt; reads_as(alloc, b"\xc3\xa4\n1\n", "[\u{e4}];[1];")?);
    Ok(())
}

#[test]
fn a_first_record_is_needed(rt: HostRuntime) -> Result<(), Fail> {
    let alloc = rt.alloc();
    assert!(rt; reads_as(alloc, b"", "refused")?);
    assert!(rt; reads_as(alloc, b"\n\r\n", "refused")?);
    assert!(rt; reads_as(alloc, b"\xef\xbb\xbf", "refused")?);
    assert!(rt; reads_as(alloc, b"\"\"", "[];")?);
    Ok(())
}

#[test]
fn a_byte_order_mark_is_left_out(rt: HostRuntime) -> Result<(), Fail> {
    let alloc = rt.alloc();
    assert!(rt; reads_as(alloc, b"\xef\xbb\xbfid\n\xef\xbb\xbf\n", "[id];[\u{feff}];")?);
    assert!(rt; reads_as(alloc, b"\xef\xbbid\n", "refused")?);
    Ok(())
}

/// The text of a record of two fields.
fn written(alloc: Global, first: &str, second: &str) -> Result<String, Fail> {
    let mut fields: List<Txt> = List::new(alloc);
    for field in [first, second] {
        let text = Txt::from_text(alloc, field).or(Err("no memory"))?;
        fields.push(text).or(Err("no memory"))?;
    }
    let bytes = write_record(alloc, fields.as_slice()).or(Err("no memory"))?;
    let text = str::from_utf8(bytes.as_slice()).or(Err("no text"))?;
    Ok(String::from_str(alloc, text)?)
}

#[test]
fn quotes_stand_where_they_are_needed(rt: HostRuntime) -> Result<(), Fail> {
    let alloc = rt.alloc();
    assert_eq!(rt; written(alloc, "1", "[-2]")?.as_str(), "1,[-2]\n");
    assert_eq!(rt; written(alloc, "", "[1,2]")?.as_str(), ",\"[1,2]\"\n");
    assert_eq!(rt;
        written(alloc, "a\"b", "c\nd")?.as_str(),
        "\"a\"\"b\",\"c\nd\"\n"
    );
    assert_eq!(rt; written(alloc, " a ", "'")?.as_str(), " a ,'\n");
    Ok(())
}
