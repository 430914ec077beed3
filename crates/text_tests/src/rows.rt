//! Rows, as the format shows them.
use command_lines::LineFault;
use map_board::{LookRow, Shown};
use map_text::{
    Head, Refusal, RowWriter, counts_text, head_text, made_text, refused_text, row_text,
};
use path_calc::levels;
use scene_book::EditFault;
use scene_parts::{Class, Field, Name, PartFault, Word};
use std::test::Fail;

#[test]
fn refused_lines_have_these_rows(rt: HostRuntime) -> Result<(), Fail> {
    let alloc = rt.alloc();
    let word = Word::from_vec(b"a,\"b\n".to_vec(alloc)?);
    let faults = [
        (Refusal::LongLine, "LongLine,,,"),
        (
            Refusal::Line(LineFault::UnknownDo { word }),
            "UnknownDo,\"a,\"\"b\n\",,",
        ),
        (
            Refusal::Line(LineFault::Part(PartFault::OutOfRange {
                field: Field::H,
                value: -1,
            })),
            "OutOfRange,h,-1,",
        ),
        (
            Refusal::Edit(EditFault::Full {
                class: Class::Receiver,
                limit: 4096,
            }),
            "Full,receiver,4096,",
        ),
        (Refusal::NoSuchVersion { version: 3 }, "NoSuchVersion,3,,"),
    ];
    let mut writer = RowWriter::new(alloc);
    for (fault, said) in &faults {
        let row = refused_text(&mut writer, 1, 4, fault)?;
        let expected = format!(in alloc; "refused,1,4,{said}\n")?;
        assert_eq!(rt; row.as_slice(), expected.as_bytes(), "{said}");
    }
    Ok(())
}

#[test]
fn rows_show_these_levels(rt: HostRuntime) -> Result<(), Fail> {
    let alloc = rt.alloc();
    let mut writer = RowWriter::new(alloc);
    let rows = [
        (head_text(&mut writer, Head::Look, 3, 1)?, "look,3,1,,,,\n"),
        (
            counts_text(&mut writer, 4, 1, 7, 5, 1, 2)?,
            "counts,4,1,7,5,1,2\n",
        ),
        // From 51.625 dB less a unit to 51.62 dB and a bit.
        (
            made_text(&mut writer, 69, 256, 7, 2, 221_727_686_655, 221_706_211_820)?,
            "made,69,256,7,2,51.62,51.63\n",
        ),
    ];
    for (row, expected) in &rows {
        assert_eq!(rt; row.as_slice(), expected.as_bytes());
    }
    Ok(())
}

#[test]
fn a_receiver_has_these_rows(rt: HostRuntime) -> Result<(), Fail> {
    let alloc = rt.alloc();
    let shown = [
        (
            Shown::Current(levels(&[])),
            "row,9,g/0/0,current,,0.00,0.00\n",
        ),
        (
            Shown::Stale {
                version: 5,
                by: 6,
                levels: levels(&[]),
            },
            "row,5,g/0/0,stale,6,0.00,0.00\n",
        ),
        (Shown::New { since: 3 }, "row,3,g/0/0,new,,,\n"),
    ];
    let mut writer = RowWriter::new(alloc);
    for (shown, expected) in shown {
        let name = Name::from_vec(b"g/0/0".to_vec(alloc)?);
        let texts = row_text(&mut writer, 9, &LookRow { name, shown }, false)?;
        assert_eq!(rt; texts.items().len(), 1);
        let Some(text) = texts.items().first() else {
            return Err(Fail::new("no row"));
        };
        assert_eq!(rt; text.items(), expected.as_bytes());
    }
    Ok(())
}

#[test]
fn bands_stand_behind_the_row_of_a_receiver(rt: HostRuntime) -> Result<(), Fail> {
    let alloc = rt.alloc();
    let name = Name::from_vec(b"r".to_vec(alloc)?);
    let shown = Shown::Stale {
        version: 5,
        by: 6,
        levels: levels(&[]),
    };
    let mut writer = RowWriter::new(alloc);
    let texts = row_text(&mut writer, 9, &LookRow { name, shown }, true)?;
    assert_eq!(rt; texts.items().len(), 9);
    let mut rows = texts.items().iter().skip(1);
    for frequency in ["63", "125", "250", "500", "1000", "2000", "4000", "8000"] {
        let Some(text) = rows.next() else {
            return Err(Fail::new("too few rows"));
        };
        let expected = format!(in alloc; "band,5,r,{frequency},,0.00,0.00\n")?;
        assert_eq!(rt; text.items(), expected.as_bytes());
    }
    Ok(())
}
