use super::steps::LINES;
use lv_base::{Bytes, NoMemory};
use std::alloc::Global;
use std::process::Abort;
use std::test::Fail;
use step_record::{RecordFault, read, write};

/// Lines that have no form, each wrong in one place.
const WRONG: &str = "A block
A block 01
A block 4294967296
A block x
A look CA
A look CA 00
A look 0 CA
A take J32
A take CW0
A take CW9
A take L
A send j0
A full CB
A long J00
A done -1
A done 1 1
A stop 0
A begin work 0
A begin run 32
A begin run
A begin Run 0
A end make 0
A beat 1
A join
A end
A  stop
a stop
B stop
W stop
W0 stop
W9 stop
W01 stop
W1 look CW1 0
W1 begin run 0
W1 block 0
W1 done 0
W1 take WC10
C block 0
C look AC 1
C full CA
C long CA
C stop
C begin run 0
C end restore_safe 0
C beat
C late
C join 1
end 1
 end
END

";

/// A run of two instances in two blocks.
const WHOLE: &str = "lv2fx-record 1
C begin make 0
C end make 0
C begin make 1
C end make 1
C begin activate 0
C end activate 0
C begin activate 1
C end activate 1
A block 0
A look CA 0
A begin run 0
A end run 0
A begin run 1
A end run 1
A done 0
A block 1
A look CA 0
A begin run 0
A end run 0
A begin run 1
A end run 1
A done 1
A stop
C beat 3
C send CW1
W1 take CW1
W1 stop
C join
C begin deactivate 0
C end deactivate 0
C begin deactivate 1
C end deactivate 1
C begin cleanup 0
C end cleanup 0
C begin cleanup 1
C end cleanup 1
end
";

/// A state is restored between two blocks, by messages with audio and the worker.
const RESTORED: &str = "lv2fx-record 1
C beat 2
C send CA
A block 2
A look CA 1
A take CA
A send AC
A done 2
C take AC
C send CW1
W1 take CW1
W1 send WC1
C take WC1
C begin restore 0
C end restore 0
C send CW1
C send CA
W1 take CW1
A block 3
A look CA 1
A take CA
A begin run 0
A end run 0
A done 3
A stop
end
";

/// A state is restored by a worker beside the runs of audio, which makes a job of its own.
const RESTORED_SAFELY: &str = "lv2fx-record 1
C beat 1
C send CW1
W1 take CW1
W1 begin restore_safe 0
W1 send L0
W1 end restore_safe 0
W1 take L0
W1 begin work 0
W1 send R0
W1 end work 0
W1 send WC1
C take WC1
end
";

/// Why a text is no record.
fn fault_of(alloc: Global, text: &[u8]) -> Option<RecordFault> {
    match read(alloc, text) {
        Ok(_) => None,
        Err(fault) => Some(fault),
    }
}

/// A record with this line after its first.
fn with_line(alloc: Global, line: &str) -> Result<Bytes, NoMemory> {
    let mut text = Bytes::from_slice(alloc, "lv2fx-record 1\n".as_bytes())?;
    text.push_all(line.as_bytes())?;
    text.push_all("\nend\n".as_bytes())?;
    Ok(text)
}

/// Whether a text is a record, whose text it is again.
fn is_read_and_written(alloc: Global, text: &str) -> Result<bool, NoMemory> {
    match read(alloc, text.as_bytes()) {
        Ok(steps) => {
            let written = write(alloc, &steps)?;
            Ok(written.as_slice() == text.as_bytes())
        }
        Err(_) => Ok(false),
    }
}

#[test]
fn what_is_written_is_read(rt: HostRuntime) -> Result<(), NoMemory> {
    let every_kind = is_read_and_written(rt.alloc(), LINES)?;
    let whole = is_read_and_written(rt.alloc(), WHOLE)?;
    assert!(rt; every_kind && whole);
    Ok(())
}

#[test]
fn restores_are_read(rt: HostRuntime) -> Result<(), NoMemory> {
    let restored = is_read_and_written(rt.alloc(), RESTORED)?;
    let safely = is_read_and_written(rt.alloc(), RESTORED_SAFELY)?;
    assert!(rt; restored && safely);
    Ok(())
}

#[test]
fn lines_without_a_form_are_refused(rt: HostRuntime) -> Result<(), Fail> {
    let alloc = rt.alloc();
    for line in WRONG.lines() {
        let text = with_line(alloc, line)?;
        assert!(rt; fault_of(alloc, text.as_slice()) == Some(RecordFault::Syntax(2)));
    }
    Ok(())
}

#[test]
fn the_first_line_must_be_there(rt: HostRuntime) {
    let alloc = rt.alloc();
    assert!(rt; fault_of(alloc, "".as_bytes()) == Some(RecordFault::Syntax(1)));
    assert!(rt; fault_of(alloc, "lv2fx-record 1".as_bytes()) == Some(RecordFault::Syntax(1)));
    assert!(rt;
        fault_of(alloc, "lv2fx-record 2\nend\n".as_bytes()) == Some(RecordFault::Syntax(1))
    );
}

#[test]
fn the_end_stands_at_the_end(rt: HostRuntime) {
    let alloc = rt.alloc();
    let middle = "lv2fx-record 1\nC join\nend\nC join\n".as_bytes();
    let open = "lv2fx-record 1\nC join\nend".as_bytes();
    assert!(rt; fault_of(alloc, middle) == Some(RecordFault::Syntax(3)));
    assert!(rt; fault_of(alloc, open) == Some(RecordFault::Syntax(3)));
    assert!(rt; fault_of(alloc, "lv2fx-record 1\nC join\n".as_bytes()).is_none());
}

fn push_times(text: &mut Bytes, line: &str, times: u32) -> Result<(), NoMemory> {
    for _ in 0..times {
        text.push_all(line.as_bytes())?;
    }
    Ok(())
}

#[test]
fn many_lines_are_read(rt: HostRuntime) -> Result<(), Fail> {
    let alloc = rt.alloc();
    let mut text = Bytes::from_slice(alloc, "lv2fx-record 1\n".as_bytes())?;
    push_times(&mut text, "A begin end_run 31\n", 100_000)?;
    text.push_all("end\n".as_bytes())?;
    match read(alloc, text.as_slice()) {
        Ok(steps) => assert!(rt; steps.entries().len() == 100_001),
        Err(_) => assert!(rt; false),
    }
    Ok(())
}

#[test]
fn too_many_lines_are_counted(rt: HostRuntime) -> Result<(), Fail> {
    let alloc = rt.alloc();
    let mut text = Bytes::new(alloc);
    push_times(&mut text, "\n", 4_718_593)?;
    assert!(rt; fault_of(alloc, text.as_slice()) == Some(RecordFault::Syntax(1)));
    text.push_all("\n".as_bytes())?;
    assert!(rt; fault_of(alloc, text.as_slice()) == Some(RecordFault::TooMany(4_718_593)));
    Ok(())
}
