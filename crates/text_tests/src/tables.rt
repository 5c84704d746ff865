//! The partition and the size table.
use pf_model::Band;
use pf_tables::{Parts, TableErr, part_text, read_part, read_size};
use small_meshes::mesh_at;
use std::alloc::{AllocError, Global};
use std::process::Abort;
use std::test::Fail;

// What is read of a short partition of two triangles.
fn two_in<R: Abort + AllocGlobal>(rt: &R, text: &str) -> Result<Parts, TableErr> {
    assert!(rt; text.len() <= 100);
    read_part(rt.alloc(), text.as_bytes(), 2)
}

#[test]
fn a_partition_is_read(rt: HostRuntime) -> Result<(), Fail> {
    let parts = two_in(&rt, " 007\t# seven\r\n\n4#5\n")?;
    assert_eq!(rt; parts.owners.as_slice(), [7, 4].as_slice());
    assert_eq!(rt; parts.chunks, 8);
    Ok(())
}

// A partition has this fault.
fn assert_part_fault<R: Abort + AllocGlobal>(rt: &R, text: &str, fault: TableErr) {
    let read = two_in(rt, text);
    assert_eq!(rt; read.err(), Some(fault), "{text:?}");
}

#[test]
fn each_fault_of_a_partition_is_named(rt: HostRuntime) {
    for (text, fault) in [
        ("0\n\n# no more\n", TableErr::Short { line: 4 }),
        ("0\n0\n0\n", TableErr::Extra { line: 3 }),
        ("0\n 1.0\n", TableErr::Word { line: 2, column: 2 }),
        ("0 1\n0\n", TableErr::Word { line: 1, column: 3 }),
        ("64 x\n0\n", TableErr::Chunk { line: 1, found: 64 }),
    ] {
        assert_part_fault(&rt, text, fault);
    }
}

#[test]
fn the_owners_of_a_mesh_are_written(rt: HostRuntime) -> Result<(), Fail> {
    let mesh = mesh_at(
        rt.alloc(),
        &[(0, 0), (8, 0), (4, 2), (4, -2)],
        &[[0, 1, 2], [1, 0, 3]],
    )?;
    let text = part_text(rt.alloc(), &mesh)?;
    assert_eq!(rt; text.as_slice(), b"0\n0\n".as_slice());
    Ok(())
}

fn default_band(min2: i64, max2: i64) -> Band {
    Band {
        xlo: -268_435_456,
        ylo: -268_435_456,
        xhi: 268_435_456,
        yhi: 268_435_456,
        min2,
        max2,
    }
}

#[test]
fn a_size_table_is_read_in_its_order(rt: HostRuntime) -> Result<(), Fail> {
    let text =
        b"0 0 512 512 256 2048\n-4. +3 2.00 5 00 1152921504606846976 # wide\n\ndefault 0 8192\n";
    let bands = read_size(rt.alloc(), text)?;
    let first = Band {
        xlo: 0,
        ylo: 0,
        xhi: 512,
        yhi: 512,
        min2: 256,
        max2: 2048,
    };
    let second = Band {
        xlo: -4,
        ylo: 3,
        xhi: 2,
        yhi: 5,
        min2: 0,
        max2: 1_152_921_504_606_846_976,
    };
    let wanted = [first, second, default_band(0, 8192)];
    assert_eq!(rt; bands.as_slice(), wanted.as_slice());
    Ok(())
}

// A size table has this fault.
fn assert_size_fault<R: Abort + AllocGlobal>(rt: &R, text: &str, fault: TableErr) {
    assert!(rt; text.len() <= 100);
    let read = read_size(rt.alloc(), text.as_bytes());
    assert_eq!(rt; read.err(), Some(fault), "{text:?}");
}

#[test]
fn each_fault_of_a_size_table_is_named(rt: HostRuntime) {
    for (text, fault) in [
        ("0 0 1 1 0 1\n", TableErr::NoDefault),
        ("Default 0 1\n", TableErr::Short { line: 1 }),
        ("9 0 1 .5 1 2\n", TableErr::Word { line: 1, column: 7 }),
        ("9 0 1 1 1 2\n", TableErr::Band { line: 1 }),
        (
            "0 0 9223372036854775808 1 1 2\n",
            TableErr::Band { line: 1 },
        ),
        (
            "default 0 1152921504606846977\n",
            TableErr::Band { line: 1 },
        ),
        ("default 0 1\n\n0 0 1 1 0 1\n", TableErr::Extra { line: 3 }),
    ] {
        assert_size_fault(&rt, text, fault);
    }
}

// So many rows.
fn rows(alloc: Global, count: u32) -> Result<Vec<u8>, AllocError> {
    let mut text = Vec::new(alloc);
    for _ in 0..count {
        text.extend_from_slice(b"0 0 1 1 0 1\n")?;
    }
    Ok(text)
}

// What is read of a table with so many rows above the default.
fn bands_below<R: Abort + AllocGlobal>(rt: &R, count: u32) -> Result<Vec<Band>, TableErr> {
    let Ok(mut text) = rows(rt.alloc(), count) else {
        return Err(TableErr::Memory);
    };
    if text.extend_from_slice(b"default 0 1\n").is_err() {
        return Err(TableErr::Memory);
    }
    assert!(rt; text.len() <= 20_000);
    read_size(rt.alloc(), text.as_slice())
}

#[test]
fn at_most_1023_rows_stand_above_the_default(rt: HostRuntime) -> Result<(), Fail> {
    assert_eq!(rt; bands_below(&rt, 1023)?.len(), 1024);
    let read = bands_below(&rt, 1024);
    assert_eq!(rt; read.err(), Some(TableErr::Band { line: 1024 }));
    Ok(())
}
