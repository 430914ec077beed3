//! Runs whose reads and writes fail, one number at a time. The rows expected of the site of a works are those of an
//! independent calculation.
use crate::tests::{ended, taken_of, written};
use map_io::{MemSource, OpenGate};
use std::test::Fail;

/// The site of a works, up to its first settle.
const SITE: &str =
    "{\"do\":\"set\",\"g\":20,\"air\":\"15/80\",\"c0\":200}\n{\"do\":\"source\",\"name\":\"fan\",\"kind\":\"industry\",\"x\":0,\"y\":0,\"h\":6000,\"lw\":[9500,9800,10100,10200,10000,9600,9000,8200]}\n{\"do\":\"source\",\"name\":\"gate\",\"kind\":\"road\",\"x\":-40000,\"y\":25000,\"h\":500,\"lw\":[8800,9000,9100,9300,9500,9200,8500,7600]}\n{\"do\":\"source\",\"name\":\"track\",\"kind\":\"rail\",\"x\":60000,\"y\":-30000,\"h\":500,\"lw\":[9000,9200,9400,9700,9900,9700,9100,8300],\"dc\":300}\n{\"do\":\"source\",\"name\":\"saw\",\"kind\":\"construction\",\"x\":30000,\"y\":10000,\"h\":1500,\"lw\":[null,8500,9000,9600,10200,10400,10300,9800]}\n{\"do\":\"building\",\"name\":\"hall\",\"points\":[[-15000,15000],[25000,15000],[25000,35000],[-15000,35000]],\"h\":9000,\"rho\":800}\n{\"do\":\"building\",\"name\":\"office\",\"points\":[[40000,30000],[60000,30000],[60000,45000],[40000,45000]],\"h\":14000,\"rho\":800}\n{\"do\":\"building\",\"name\":\"shed\",\"points\":[[-60000,40000],[-50000,40000],[-50000,48000],[-60000,48000]],\"h\":4000}\n{\"do\":\"barrier\",\"name\":\"screen\",\"points\":[[-30000,50000],[10000,52000],[40000,50000]],\"h\":3500,\"density\":20,\"rho\":900}\n{\"do\":\"zone\",\"name\":\"lawn\",\"points\":[[-80000,55000],[100000,55000],[100000,160000],[-80000,160000]],\"g\":100}\n{\"do\":\"zone\",\"name\":\"yard\",\"points\":[[-70000,-40000],[70000,-40000],[70000,40000],[-70000,40000]],\"g\":0}\n{\"do\":\"grid\",\"name\":\"g\",\"x\":-20000,\"y\":60000,\"step\":20000,\"columns\":5,\"rows\":5,\"h\":4000}\n{\"do\":\"settle\"}\n";

/// The rows of that settle.
const SITE_ROWS: &str =
    "settle,12,25,,,,\nrow,12,g/0/0,current,,50.21,50.22\nrow,12,g/1/0,current,,48.07,48.08\nrow,12,g/2/0,current,,50.97,51.26\nrow,12,g/3/0,current,,60.95,60.96\nrow,12,g/4/0,current,,48.63,48.64\nrow,12,g/0/1,current,,53.82,53.83\nrow,12,g/1/1,current,,46.92,46.93\nrow,12,g/2/1,current,,57.25,57.26\nrow,12,g/3/1,current,,56.66,56.67\nrow,12,g/4/1,current,,52.60,52.69\nrow,12,g/0/2,current,,50.84,50.85\nrow,12,g/1/2,current,,47.46,47.47\nrow,12,g/2/2,current,,53.91,53.92\nrow,12,g/3/2,current,,52.59,52.60\nrow,12,g/4/2,current,,52.54,52.55\nrow,12,g/0/3,current,,49.42,49.43\nrow,12,g/1/3,current,,50.11,50.12\nrow,12,g/2/3,current,,49.70,49.71\nrow,12,g/3/3,current,,49.79,49.80\nrow,12,g/4/3,current,,56.89,56.90\nrow,12,g/0/4,current,,47.73,47.74\nrow,12,g/1/4,current,,49.68,49.69\nrow,12,g/2/4,current,,48.04,48.05\nrow,12,g/3/4,current,,48.08,48.09\nrow,12,g/4/4,current,,51.66,51.67\n";

/// Edits of the site, and its second settle.
const CHANGES: &str =
    "{\"do\":\"barrier\",\"name\":\"screen\",\"points\":[[-30000,50000],[10000,52000],[40000,50000]],\"h\":5000,\"density\":20,\"rho\":900}\n{\"do\":\"building\",\"name\":\"hall\",\"points\":[[-15000,15000],[25000,15000],[25000,35000],[-15000,35000]],\"h\":12000,\"rho\":800}\n{\"do\":\"zone\",\"name\":\"lawn\",\"points\":[[-80000,55000],[100000,55000],[100000,160000],[-80000,160000]],\"g\":60}\n{\"do\":\"remove\",\"name\":\"shed\"}\n{\"do\":\"building\",\"name\":\"shed\",\"points\":[[70000,50000],[80000,50000],[80000,58000],[70000,58000]],\"h\":4000}\n{\"do\":\"source\",\"name\":\"fan\",\"kind\":\"industry\",\"x\":5000,\"y\":-5000,\"h\":6000,\"lw\":[9500,9800,10100,10200,10000,9600,9000,8200]}\n{\"do\":\"source\",\"name\":\"track\",\"kind\":\"rail\",\"x\":60000,\"y\":-30000,\"h\":500,\"lw\":[9000,9200,9400,9700,9900,9700,9100,8300],\"dc\":0}\n{\"do\":\"set\",\"c0\":100}\n{\"do\":\"remove\",\"name\":\"saw\"}\n{\"do\":\"remove\",\"name\":\"g/4/4\"}\n{\"do\":\"settle\"}\n";

/// The rows of the second settle.
const CHANGED_ROWS: &str =
    "settle,22,24,,,,\nrow,22,g/0/0,current,,45.93,45.94\nrow,22,g/1/0,current,,43.98,43.99\nrow,22,g/2/0,current,,45.41,45.42\nrow,22,g/3/0,current,,45.09,45.10\nrow,22,g/4/0,current,,39.06,39.07\nrow,22,g/0/1,current,,53.96,53.97\nrow,22,g/1/1,current,,42.13,42.14\nrow,22,g/2/1,current,,43.77,43.78\nrow,22,g/3/1,current,,41.14,41.15\nrow,22,g/4/1,current,,49.26,49.27\nrow,22,g/0/2,current,,51.16,51.17\nrow,22,g/1/2,current,,43.58,43.59\nrow,22,g/2/2,current,,39.16,39.17\nrow,22,g/3/2,current,,39.41,39.42\nrow,22,g/4/2,current,,37.81,37.82\nrow,22,g/0/3,current,,49.24,49.25\nrow,22,g/1/3,current,,44.78,44.79\nrow,22,g/2/3,current,,37.36,37.37\nrow,22,g/3/3,current,,37.47,37.48\nrow,22,g/4/3,current,,35.13,35.14\nrow,22,g/0/4,current,,47.49,47.50\nrow,22,g/1/4,current,,47.15,47.16\nrow,22,g/2/4,current,,37.69,37.70\nrow,22,g/3/4,current,,36.80,36.81\n";

/// What stands written once so many bytes of the site and its changes were read: the rows of each line that is whole.
fn rows_by(bytes: usize) -> (&'static str, &'static str) {
    if bytes < SITE.len() {
        ("", "")
    } else if bytes < SITE.len() + CHANGES.len() {
        (SITE_ROWS, "")
    } else {
        (SITE_ROWS, CHANGED_ROWS)
    }
}

#[test]
fn each_read_fails_in_turn(rt: HostRuntime) -> Result<(), Fail> {
    let alloc = rt.alloc();
    let input = format!(in alloc; "{SITE}{CHANGES}")?;
    // 34 reads give all bytes, the 35th finds the end, and there is no 36th.
    for read in 1..=36 {
        let bytes = input.as_bytes().to_vec(alloc)?;
        let mut source = MemSource::new(bytes, 64, vec![in alloc; read]?);
        let (report, taken) = taken_of(&rt, alloc, &[], &mut source, 0, &OpenGate)?;
        let status = if read < 36 { 3 } else { 0 };
        assert_eq!(rt; report.status.exit_code(), status, "read {read}");
        let (first, second) = rows_by(64 * (read as usize - 1));
        let rows = format!(in alloc; "{first}{second}")?;
        assert_eq!(rt; taken.as_slice(), rows.as_bytes(), "read {read}");
    }
    Ok(())
}

#[test]
fn each_write_fails_in_turn(rt: HostRuntime) -> Result<(), Fail> {
    let alloc = rt.alloc();
    let input = format!(in alloc; "{SITE}{CHANGES}")?;
    let rows = format!(in alloc; "{SITE_ROWS}{CHANGED_ROWS}")?;
    let mut before = String::new(alloc);
    let mut write: u32 = 1;
    for row in rows.split_inclusive('\n') {
        let (report, taken) = written(&rt, alloc, &[], input.as_bytes(), 0, write)?;
        // Line 13 writes 26 rows, and line 24 the others.
        let lines = if write <= 26 { 13 } else { 24 };
        assert_eq!(rt; ended(&report), (4, lines));
        assert_eq!(rt; taken.as_slice(), before.as_bytes(), "write {write}");
        before.push_str(row)?;
        write = write.saturating_add(1);
    }
    assert_eq!(rt; write, 52);
    let (report, taken) = written(&rt, alloc, &[], input.as_bytes(), 0, write)?;
    assert_eq!(rt; ended(&report), (0, 24));
    assert_eq!(rt; taken.as_slice(), rows.as_bytes());
    Ok(())
}
