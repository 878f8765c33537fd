use creation::{KeptTexts, MAX_KEPT_BYTES, MAX_KEPT_PROFILES, MAX_KEPT_SCRIPTS};
use node_io::FileFault;
use runtime_core::{CompiledProfile, Contents, FileAnswer, FileAnswers};
use script::Script;
use std::alloc::{AllocError, Global};
use std::test::Fail;
use sys_table::CallTable;

// A script whose text ends with this many spaces.
fn script(alloc: Global, code: usize, spaces: usize) -> Result<Contents<Script>, AllocError> {
    let text = format!(in alloc; "{{\"steps\":[{{\"exit\":{code}}}]}}")?;
    let mut bytes = Vec::from_slice(alloc, text.as_bytes())?;
    for _ in 0..spaces {
        bytes.push(b' ')?;
    }
    Ok(Contents::new(CallTable::Linux5_8, bytes))
}

fn profile(alloc: Global, errno: usize) -> Result<Contents<CompiledProfile>, AllocError> {
    let text = format!(in alloc;
        "{{\"defaultAction\":\"SCMP_ACT_ERRNO\",\"defaultErrnoRet\":{errno}}}"
    )?;
    let bytes = Vec::from_slice(alloc, text.as_bytes())?;
    Ok(Contents::new(CallTable::Linux5_8, bytes))
}

// Prepares these results as a runtime does, and returns whether something in them was not known.
fn is_new(
    alloc: Global,
    texts: &mut KeptTexts,
    script: FileAnswer<Script>,
    profile: FileAnswer<CompiledProfile>,
) -> bool {
    let files = texts.lend(FileAnswers { script, profile });
    let files = files.prepared(alloc);
    let new = files.new_texts(alloc);
    let is_new = !new.is_empty();
    texts.keep(new);
    is_new
}

fn is_new_script(
    alloc: Global,
    texts: &mut KeptTexts,
    code: usize,
    spaces: usize,
) -> Result<bool, AllocError> {
    let script = script(alloc, code, spaces)?;
    Ok(is_new(alloc, texts, Some(Ok(script)), None))
}

fn is_new_profile(alloc: Global, texts: &mut KeptTexts, errno: usize) -> Result<bool, AllocError> {
    let profile = profile(alloc, errno)?;
    Ok(is_new(alloc, texts, None, Some(Ok(profile))))
}

// The texts of 100 to 163 have the same length. The next one drops the oldest.
#[test]
fn the_last_64_scripts_are_known(rt: HostRuntime) -> Result<(), Fail> {
    let alloc = rt.alloc();
    let mut texts = KeptTexts::new(alloc);
    for turn in 0..2 {
        for code in 100..100 + MAX_KEPT_SCRIPTS {
            let found = is_new_script(alloc, &mut texts, code, 0)?;
            assert!(rt; found == (turn == 0), "{code} in turn {turn}");
        }
    }
    for (code, is_new) in [(164, true), (101, false), (100, true), (101, true)] {
        let found = is_new_script(alloc, &mut texts, code, 0)?;
        assert!(rt; found == is_new, "{code}");
    }
    Ok(())
}

#[test]
fn the_last_16_profiles_are_known(rt: HostRuntime) -> Result<(), Fail> {
    let alloc = rt.alloc();
    let mut texts = KeptTexts::new(alloc);
    for turn in 0..2 {
        for errno in 10..10 + MAX_KEPT_PROFILES {
            let found = is_new_profile(alloc, &mut texts, errno)?;
            assert!(rt; found == (turn == 0), "{errno} in turn {turn}");
        }
    }
    for (errno, is_new) in [(26, true), (11, false), (10, true), (11, true)] {
        let found = is_new_profile(alloc, &mut texts, errno)?;
        assert!(rt; found == is_new, "{errno}");
    }
    Ok(())
}

// A text of a million bytes counts three times, so there is place for two.
#[test]
fn large_texts_drop_more_than_one(rt: HostRuntime) -> Result<(), Fail> {
    let alloc = rt.alloc();
    let mut texts = KeptTexts::new(alloc);
    assert!(rt; 6_000_000 < MAX_KEPT_BYTES && MAX_KEPT_BYTES < 9_000_000);
    for (code, spaces, is_new) in [
        (1, 0, true),
        (2, 0, true),
        (3, 1_000_000, true),
        (1, 0, false),
        (4, 1_000_000, true),
        (1, 0, false),
        (5, 1_000_000, true),
        (1, 0, true),
        (2, 0, true),
        (4, 1_000_000, false),
        (5, 1_000_000, false),
        (3, 1_000_000, true),
        (4, 1_000_000, true),
        (1, 0, false),
    ] {
        let found = is_new_script(alloc, &mut texts, code, spaces)?;
        assert!(rt; found == is_new, "{code}");
    }
    Ok(())
}

// Script and profile are known each by itself, and what can't be read is not kept.
#[test]
fn what_is_refused_is_not_kept(rt: HostRuntime) -> Result<(), Fail> {
    let alloc = rt.alloc();
    let mut texts = KeptTexts::new(alloc);
    for _ in 0..2 {
        let code = script(alloc, 256, 0)?;
        let errno = profile(alloc, 4_096)?;
        let found = is_new(alloc, &mut texts, Some(Ok(code)), Some(Ok(errno)));
        assert!(rt; !found);
    }
    let missing = is_new(alloc, &mut texts, Some(Err(FileFault::NotFound)), None);
    assert!(rt; !missing);
    for is_wanted in [true, false] {
        let code = script(alloc, 1, 0)?;
        let errno = profile(alloc, 1)?;
        let found = is_new(alloc, &mut texts, Some(Ok(code)), Some(Ok(errno)));
        assert!(rt; found == is_wanted);
    }
    let other = profile(alloc, 2)?;
    let code = script(alloc, 1, 0)?;
    assert!(rt; is_new(alloc, &mut texts, Some(Ok(code)), Some(Ok(other))));
    Ok(())
}
