use super::ended::{Ended, Fails, hold, run};
use host_main::without_words;
use lv_base::{Bytes, NoMemory};
use lv_outside::MemSink;
use std::alloc::Global;
use std::process::Abort;

const STATE: &str =
    "@prefix state: <http://lv2plug.in/ns/ext/state#> .\n@prefix fx: <urn:lv2fx:> .\n";

const CONST_TO_AMP: &str =
    "lv2fx 1\nblock 4\nblocks 2\ninst c urn:lv2fx:const\ninst g urn:lv2fx:amp\nset c value 0.5\nset g gain 0.5\ncable c out g in\nout g out\n";

const CONST_TO_AMP_RECORD: &str =
    "lv2fx-record 1\nC begin make 0\nC end make 0\nC begin make 1\nC end make 1\nC begin activate 0\nC end activate 0\nC begin activate 1\nC end activate 1\nA block 0\nA look CA 0\nA begin run 0\nA end run 0\nA begin run 1\nA end run 1\nA done 0\nA block 1\nA look CA 0\nA begin run 0\nA end run 0\nA begin run 1\nA end run 1\nA done 1\nA stop\nC beat 3\nC send CW1\nW1 take CW1\nW1 stop\nC join\nC begin deactivate 0\nC end deactivate 0\nC begin deactivate 1\nC end deactivate 1\nC begin cleanup 0\nC end cleanup 0\nC begin cleanup 1\nC end cleanup 1\nend\n";

const CONST_TO_AMP_SUMMARY: &str =
    "lv2fx render\nframes 8 channels 1\ninst c runs 2 jobs 0 refused 0 worked 0 responses 0 dropped 0 delivered 0 errors 0\ninst g runs 2 jobs 0 refused 0 worked 0 responses 0 dropped 0 delivered 0 errors 0\nsaves 0\nlate 0\nlost 0\nentries 36\n";

const NO_BLOCKS: &str =
    "lv2fx 1\nblock 4\nblocks 0\ninst c urn:lv2fx:const\ninst g urn:lv2fx:amp\nset c value 0.5\nset g gain 0.5\ncable c out g in\nout g out\n";

const NO_BLOCKS_RECORD: &str =
    "lv2fx-record 1\nC begin make 0\nC end make 0\nC begin make 1\nC end make 1\nC begin activate 0\nC end activate 0\nC begin activate 1\nC end activate 1\nA stop\nC beat 1\nC send CW1\nW1 take CW1\nW1 stop\nC join\nC begin deactivate 0\nC end deactivate 0\nC begin deactivate 1\nC end deactivate 1\nC begin cleanup 0\nC end cleanup 0\nC begin cleanup 1\nC end cleanup 1\nend\n";

const USAGE: &str =
    "lv2fx: 1 usage: check BUNDLE | render SESSION OUT | play SESSION OUT | replay SESSION RECORD OUT | gen NUMBER OUT\n";

const RENDER: &[&str] = &["render", "s", "o"];

// The session stands at `s`, and each of the files that are written under `o` is there already.
fn files(alloc: Global, session: &str) -> Result<Vec<(Bytes, Bytes)>, NoMemory> {
    let mut files = Vec::new(alloc);
    hold(&mut files, alloc, "s", session)?;
    hold(&mut files, alloc, "o.rec", "old")?;
    hold(&mut files, alloc, "o.pcm", "old")?;
    hold(&mut files, alloc, "o.ttl", "old")?;
    Ok(files)
}

fn render(alloc: Global, words: &[&str], session: &str, fails: Fails) -> Result<Ended, NoMemory> {
    let files = files(alloc, session)?;
    run(alloc, words, files, fails)
}

#[test]
fn a_constant_through_an_amplifier(rt: HostRuntime) -> Result<(), NoMemory> {
    let ended = render(rt.alloc(), RENDER, CONST_TO_AMP, Fails::NONE)?;
    assert!(rt; ended.is(0, CONST_TO_AMP_SUMMARY));
    assert!(rt; ended.holds("o.rec", CONST_TO_AMP_RECORD.as_bytes()));
    assert!(rt; ended.holds("o.ttl", STATE.as_bytes()));
    Ok(())
}

#[test]
fn no_blocks(rt: HostRuntime) -> Result<(), NoMemory> {
    let ended = render(rt.alloc(), RENDER, NO_BLOCKS, Fails::NONE)?;
    assert!(rt; ended.holds("o.rec", NO_BLOCKS_RECORD.as_bytes()));
    assert!(rt; ended.holds("o.pcm", b""));
    Ok(())
}

// A session is rendered, and this is its sound.
fn sounds<R: Abort + AllocGlobal>(rt: &R, session: &str, sound: &[u8]) -> Result<(), NoMemory> {
    let ended = render(rt.alloc(), RENDER, session, Fails::NONE)?;
    assert!(rt; ended.holds("o.pcm", sound), "of {session:?}");
    Ok(())
}

#[test]
fn a_quarter_and_full_scale(rt: HostRuntime) -> Result<(), NoMemory> {
    sounds(
        &rt,
        CONST_TO_AMP,
        b"\x00\x20\x00\x20\x00\x20\x00\x20\x00\x20\x00\x20\x00\x20\x00\x20",
    )?;
    sounds(
        &rt,
        "lv2fx 1\nblock 1\nblocks 1\ninst c urn:lv2fx:const\nset c value 1.0\nout c out\n",
        b"\xff\x7f",
    )?;
    Ok(())
}

// The sum of the first two constants is beyond the greatest sample, that of all three isn't.
#[test]
fn a_mix(rt: HostRuntime) -> Result<(), NoMemory> {
    let session =
        "lv2fx 1\nblock 1\nblocks 1\ninst p urn:lv2fx:const\ninst q urn:lv2fx:const\ninst r urn:lv2fx:const\ninst g urn:lv2fx:amp\nset p value 100.0\nset q value 100.0\nset r value -100.0\nset g gain 0.0078125\ncable p out g in\ncable q out g in\ncable r out g in\nout g out\n";
    sounds(&rt, session, b"\x00\x64")?;
    Ok(())
}

#[test]
fn the_last_of_two_settings(rt: HostRuntime) -> Result<(), NoMemory> {
    let session =
        "lv2fx 1\nblock 1\nblocks 1\ninst c urn:lv2fx:const\nset c value 1.0\nset c value 0.25\nout c out\n";
    sounds(&rt, session, b"\x00\x20")?;
    Ok(())
}

// Its lines end with CR and LF, and the last has no end.
#[test]
fn two_channels(rt: HostRuntime) -> Result<(), NoMemory> {
    let session =
        "lv2fx 1\r\nblock 1\r\nblocks 2\r\ninst c urn:lv2fx:const\r\ninst d urn:lv2fx:const\r\nset c value 0.25\r\nset d value -0.25\r\nout d out\r\nout c out";
    sounds(&rt, session, b"\x00\xe0\x00\x20\x00\xe0\x00\x20")?;
    Ok(())
}

// A command is refused with this status and this line, and nothing is written.
fn refused<R: Abort + AllocGlobal>(
    rt: &R,
    words: &[&str],
    session: &str,
    status: u8,
    line: &str,
) -> Result<(), NoMemory> {
    let ended = render(rt.alloc(), words, session, Fails::NONE)?;
    assert!(rt; ended.is(status, line), "at {line:?}");
    assert!(rt; ended.holds("o.rec", b"old"), "at {line:?}");
    Ok(())
}

#[test]
fn words_of_no_form(rt: HostRuntime) -> Result<(), NoMemory> {
    refused(&rt, &[], CONST_TO_AMP, 1, USAGE)?;
    refused(&rt, &["check"], CONST_TO_AMP, 1, USAGE)?;
    refused(&rt, &["check", "s", "o"], CONST_TO_AMP, 1, USAGE)?;
    refused(&rt, &["render", "s"], CONST_TO_AMP, 1, USAGE)?;
    Ok(())
}

#[test]
fn words_without_memory(rt: HostRuntime) {
    let mut out = MemSink::new(rt.alloc(), Vec::new(rt.alloc()));
    let status = without_words(&mut out);
    assert!(rt; status == 14);
    assert!(rt; out.taken() == b"lv2fx: 14 no memory\n".as_slice());
}

#[test]
fn sessions_that_are_refused(rt: HostRuntime) -> Result<(), NoMemory> {
    refused(
        &rt,
        &["render", "there", "o"],
        "",
        2,
        "lv2fx: 2 missing there\n",
    )?;
    refused(&rt, RENDER, "", 7, "lv2fx: 7 script line 1 head\n")?;
    refused(
        &rt,
        RENDER,
        "lv2fx 1\nblock 4\nblocks 65537\n",
        7,
        "lv2fx: 7 script line 3 range\n",
    )?;
    refused(
        &rt,
        RENDER,
        "lv2fx 1\nblock 4\nblocks 2\nworkers 2\ninst c urn:lv2fx:const\n",
        7,
        "lv2fx: 7 script line 4 later\n",
    )?;
    refused(
        &rt,
        RENDER,
        "lv2fx 1\ninst a urn:x\nout a o\nout a o\nout a o\nout a o\nout a o\nout a o\nout a o\nout a o\nout a o\n",
        9,
        "lv2fx: 9 limit outputs 9\n",
    )?;
    Ok(())
}

// This call on the vault fails, and so does the command. So many of the files are written; a vault in memory leaves the
// one that it fails to write as it was, like those after it.
fn fails_at<R: Abort + AllocGlobal>(
    rt: &R,
    call: u64,
    line: &str,
    status: u8,
    written: usize,
) -> Result<(), NoMemory> {
    let fails = Fails {
        vault: Some(call),
        sink: None,
    };
    let ended = render(rt.alloc(), RENDER, CONST_TO_AMP, fails)?;
    assert!(rt; ended.is(status, line), "call {call}");
    assert!(rt; has_written(&ended, written), "call {call}");
    Ok(())
}

fn has_written(ended: &Ended, count: usize) -> bool {
    ended.holds("o.rec", b"old") == (count < 1)
        && ended.holds("o.pcm", b"old") == (count < 2)
        && ended.holds("o.ttl", b"old") == (count < 3)
}

#[test]
fn each_fault_of_the_vault(rt: HostRuntime) -> Result<(), NoMemory> {
    fails_at(&rt, 0, "lv2fx: 3 read failed s\n", 3, 0)?;
    fails_at(&rt, 1, "lv2fx: 4 write failed o.rec\n", 4, 0)?;
    fails_at(&rt, 2, "lv2fx: 4 write failed o.pcm\n", 4, 1)?;
    fails_at(&rt, 3, "lv2fx: 4 write failed o.ttl\n", 4, 2)?;
    fails_at(&rt, 4, CONST_TO_AMP_SUMMARY, 0, 3)?;
    Ok(())
}

const NO_SINK: Fails = Fails {
    vault: None,
    sink: Some(0),
};

#[test]
fn a_fault_of_the_sink(rt: HostRuntime) -> Result<(), NoMemory> {
    let ended = render(rt.alloc(), RENDER, CONST_TO_AMP, NO_SINK)?;
    assert!(rt; ended.is(4, "lv2fx: 4 write failed -\n"));
    assert!(rt; ended.holds("o.ttl", STATE.as_bytes()));
    Ok(())
}

// Nothing is left to say where the line fails as well.
#[test]
fn a_line_that_fails(rt: HostRuntime) -> Result<(), NoMemory> {
    let ended = render(rt.alloc(), RENDER, "", NO_SINK)?;
    assert!(rt; ended.is(7, ""));
    Ok(())
}
