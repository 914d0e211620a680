//! Sessions by number, read again.
use session_generate::generate;
use session_script::{Session, read};
use std::alloc::{AllocError, Global};
use std::test::Fail;

/// The lines of session 0, as a program apart from this one made them.
const LINES_0: &str = "lv2fx 1
block 64
blocks 512
workers 2
cells 4
inst n0 urn:lv2fx:const
inst n1 urn:lv2fx:amp
inst n2 urn:lv2fx:mix
inst n3 urn:lv2fx:echo
inst n4 urn:lv2fx:fetch
inst n5 urn:lv2fx:burst
inst n6 urn:lv2fx:keep
inst n7 urn:lv2fx:tank
inst n8 urn:lv2fx:const
inst n9 urn:lv2fx:amp
inst n10 urn:lv2fx:mix
inst n11 urn:lv2fx:echo
inst n12 urn:lv2fx:fetch
inst n13 urn:lv2fx:burst
inst n14 urn:lv2fx:keep
inst n15 urn:lv2fx:tank
set n0 value 0.807
set n8 value 0.424
cable n0 out n1 in
cable n0 out n2 a
cable n1 out n2 b
cable n2 out n3 in
cable n8 out n9 in
cable n5 out n10 a
cable n4 out n10 b
cable n2 out n11 in
out n14 out
out n15 out
at 0 patch-get n7
at 8 save n15
at 16 save n15
at 24 patch-set n7 urn:lv2fx:level fixed 0.980
at 32 save n15
at 40 patch-set n7 urn:lv2fx:level fixed 0.978
at 48 patch-get n7
at 56 patch-get n7
at 64 save n15
at 72 patch-set n7 urn:lv2fx:level fixed 0.687
at 80 save n15
at 88 patch-set n7 urn:lv2fx:level fixed 0.883
at 96 patch-set n7 urn:lv2fx:level fixed 0.351
at 104 patch-get n7
at 112 save n15
at 120 patch-set n7 urn:lv2fx:level fixed 0.776
at 128 save n15
at 136 set n0 value 0.489
at 144 patch-get n7
at 152 save n15
at 160 patch-get n7
at 168 set n0 value 0.454
at 176 set n0 value 0.379
at 184 patch-set n7 urn:lv2fx:level fixed 0.817
at 192 patch-set n7 urn:lv2fx:level fixed 0.832
at 200 patch-get n7
at 208 patch-get n7
at 216 set n0 value 0.486
at 224 set n0 value 0.791
at 232 patch-set n7 urn:lv2fx:level fixed 0.297
at 240 patch-get n7
at 248 patch-get n7
at 256 save n15
at 264 set n0 value 0.074
at 272 patch-get n7
at 280 set n0 value 0.958
at 288 patch-set n7 urn:lv2fx:level fixed 0.406
at 296 patch-set n7 urn:lv2fx:level fixed 0.542
at 304 save n15
at 312 patch-get n7
at 320 set n0 value 0.294
at 328 patch-set n7 urn:lv2fx:level fixed 0.198
at 336 set n0 value 0.107
at 344 set n0 value 0.144
at 352 set n0 value 0.254
at 360 patch-set n7 urn:lv2fx:level fixed 0.075
at 368 set n0 value 0.181
at 376 patch-set n7 urn:lv2fx:level fixed 0.226
at 384 patch-set n7 urn:lv2fx:level fixed 0.708
at 392 patch-get n7
at 400 set n0 value 0.473
at 408 patch-set n7 urn:lv2fx:level fixed 0.464
at 416 save n15
at 424 patch-get n7
at 432 patch-set n7 urn:lv2fx:level fixed 0.110
at 440 patch-get n7
at 448 set n0 value 0.565
at 456 patch-set n7 urn:lv2fx:level fixed 0.840
at 464 patch-set n7 urn:lv2fx:level fixed 0.780
at 472 save n15
at 480 patch-get n7
at 488 patch-get n7
at 496 patch-get n7
at 504 patch-set n7 urn:lv2fx:level fixed 0.090
";

fn session_of(alloc: Global, script: &[u8]) -> Option<Session> {
    if script.len() >= 4_294_967_296 {
        return None;
    }
    read(alloc, script).ok()
}

#[test]
fn session_0(rt: HostRuntime) -> Result<(), Fail> {
    let script = generate(rt.alloc(), 0)?;
    assert!(&rt; script.as_slice() == LINES_0.as_bytes());
    Ok(())
}

#[test]
fn a_session_is_read(rt: HostRuntime) -> Result<(), Fail> {
    let script = generate(rt.alloc(), 4_294_967_295)?;
    match session_of(rt.alloc(), script.as_slice()) {
        Some(session) => {
            assert!(&rt; session.insts.len() == 16 && session.cables.len() == 8);
            assert!(&rt; session.outs.len() == 2 && session.actions.len() == 64);
        }
        None => assert!(&rt; false),
    }
    Ok(())
}
