//! What no clause says of expressions: that each of these comes to its end with ample memory.
use expr_reader::{Bounds, Expr, Form, Part, Parts, RoundKind, print, read};
use std::alloc::Global;
use std::process::Abort;
use std::test::*;

/// What a text is read as: its canonical text, or its fault.
fn shown(alloc: Global, text: &str) -> Result<String, Fail> {
    match read(alloc, text) {
        Ok(expr) => print(alloc, &expr).map_err(|_| "out of memory".into()),
        Err(fault) => format!(in alloc; "{fault}").map_err(|_| "out of memory".into()),
    }
}

/// Each of these texts is read so.
fn are_read(rt: &impl Abort, alloc: Global, table: &[(&str, &str)]) -> Result<(), Fail> {
    for (text, answer) in table {
        let found = shown(alloc, text)?;
        assert_eq!(rt; found.as_str(), *answer);
    }
    Ok(())
}

#[test]
fn texts(rt: HostRuntime) -> Result<(), Fail> {
    let table = [
        ("mem", "mem"),
        ("null", "null"),
        ("region(1024, 16, mem)", "region(1024,16,mem)"),
        (
            "  region ( 0001024 ,016 , region(64,32,null)  ) ",
            "region(1024,16,region(64,32,null))",
        ),
        ("", "syntax at 0"),
        ("   ", "syntax at 3"),
        ("mem mem", "syntax at 4"),
        ("region(64,16)", "syntax at 12"),
        ("region(64,16,mem", "syntax at 16"),
        ("region(64,16,mem))", "syntax at 17"),
        ("region(64 16,mem)", "syntax at 10"),
        ("region(64,16,Mem)", "syntax at 13"),
        ("region(64,16,mem;", "syntax at 16"),
        ("regions(64,16,mem)", "syntax at 0"),
        ("kr(64,mem)", "syntax at 0"),
        (
            "region(18446744073709551616,16,mem)",
            "number too large at 7",
        ),
        ("region(18446744073709551615,16,mem)", "bad parameter at 7"),
        ("18446744073709551616", "syntax at 0"),
        ("region(0,16,mem)", "bad parameter at 7"),
        ("region(1073741824,1,mem)", "region(1073741824,1,mem)"),
        ("region(1073741825,1,mem)", "bad parameter at 7"),
        ("region(64,24,mem)", "bad parameter at 10"),
        ("region(64,0,mem)", "bad parameter at 10"),
        ("region(64,4096,null)", "region(64,4096,null)"),
        ("region(64,8192,null)", "bad parameter at 10"),
        ("region(64,128,mem)", "needs alignment at 14"),
        ("region(64,16,region(64,8,mem))", "needs alignment at 13"),
        ("region(64,8,region(64,3,mem))", "needs alignment at 12"),
        ("region(0,16,mem", "syntax at 15"),
        (
            "region(64,128,freelist(16,64,mem))",
            "needs alignment at 14",
        ),
    ];
    are_read(&rt, rt.alloc(), &table)
}

#[test]
fn texts_of_layers_with_one_parent(rt: HostRuntime) -> Result<(), Fail> {
    let table = [
        ("freelist( 16, 064, mem)", "freelist(16,64,mem)"),
        ("freelist(0,8,null)", "freelist(0,8,null)"),
        ("freelist(0,7,mem)", "bad parameter at 11"),
        ("freelist(8,7,mem)", "bad parameter at 9"),
        ("freelist(65,64,mem)", "bad parameter at 9"),
        ("freelist(16,1073741824,mem)", "freelist(16,1073741824,mem)"),
        ("freelist(16,1073741825,mem)", "bad parameter at 12"),
        ("freelist(any,mem)", "syntax at 9"),
        ("quantize( 016, mem)", "quantize(16,mem)"),
        ("quantize(pow2 ,mem)", "quantize(pow2,mem)"),
        ("quantize(0,mem)", "bad parameter at 9"),
        ("quantize(1073741825,mem)", "bad parameter at 9"),
        ("quantize(any,mem)", "syntax at 9"),
        ("quantize(mem)", "syntax at 9"),
        ("stats( null)", "stats(null)"),
        ("stats(8,mem)", "syntax at 6"),
        ("affix(8,0,mem)", "affix(8,0,mem)"),
        ("affix(256,256,mem)", "affix(256,256,mem)"),
        ("affix(264,8,mem)", "bad parameter at 6"),
        ("affix(8,4,mem)", "bad parameter at 8"),
        ("affix(8,0,region(64,4,mem))", "needs alignment at 10"),
        ("affix(0,8,region(64,4,mem))", "affix(0,8,region(64,4,mem))"),
        ("region(64,16,affix(8,8,mem))", "needs alignment at 13"),
        (
            "region(64,16,affix(48,8,mem))",
            "region(64,16,affix(48,8,mem))",
        ),
    ];
    are_read(&rt, rt.alloc(), &table)
}

/// This piece so many times.
fn repeated(rt: &HostRuntime, piece: &str, times: u32) -> Result<String, Fail> {
    let mut text = String::new(rt.alloc());
    for _ in 0..times {
        text.push_str(piece).map_err(|_| "out of memory")?;
    }
    Ok(text)
}

#[test]
fn depth(rt: HostRuntime) -> Result<(), Fail> {
    let mut eight = repeated(&rt, "region(64,16,", 8)?;
    eight.push_str("mem").map_err(|_| "out of memory")?;
    eight.push_str("))))))))").map_err(|_| "out of memory")?;
    let found = shown(rt.alloc(), &eight)?;
    assert_eq!(rt; found.as_str(), eight.as_str());
    let mut nine = repeated(&rt, "region(64,16,", 9)?;
    nine.push_str("mem)))))))))").map_err(|_| "out of memory")?;
    let found = shown(rt.alloc(), &nine)?;
    assert_eq!(rt; found.as_str(), "too deep at 104");
    let mut nine = repeated(&rt, "stats(", 9)?;
    nine.push_str("mem)))))))))").map_err(|_| "out of memory")?;
    let found = shown(rt.alloc(), &nine)?;
    assert_eq!(rt; found.as_str(), "too deep at 48");
    Ok(())
}

#[test]
fn long_texts(rt: HostRuntime) -> Result<(), Fail> {
    let parentheses = repeated(&rt, "(", 16_000)?;
    let found = shown(rt.alloc(), &parentheses)?;
    assert_eq!(rt; found.as_str(), "syntax at 0");
    let zeros = repeated(&rt, "0000000000", 100_000)?;
    let mut text = repeated(&rt, "region(", 1)?;
    text.push_str(&zeros).map_err(|_| "out of memory")?;
    text.push_str("8,8,mem)").map_err(|_| "out of memory")?;
    let found = shown(rt.alloc(), &text)?;
    assert_eq!(rt; found.as_str(), "region(8,8,mem)");
    Ok(())
}

/// A layer with its box.
fn below(rt: &HostRuntime, form: Form) -> Result<Box<Expr>, Fail> {
    Box::new(rt.alloc(), Expr { at: 0, form }).map_err(|_| "out of memory".into())
}

/// The canonical text of a form.
fn text_of(rt: &HostRuntime, form: Form) -> Result<String, Fail> {
    print(rt.alloc(), &Expr { at: 0, form }).map_err(|_| "out of memory".into())
}

#[test]
fn other_forms(rt: HostRuntime) -> Result<(), Fail> {
    let mut parts = Parts::new(rt.alloc());
    for threshold in [8, 64] {
        let member = Expr {
            at: 0,
            form: Form::Null,
        };
        parts
            .add(Part { threshold, member })
            .map_err(|_| "out of memory")?;
    }
    assert_eq!(rt; parts.len(), 2);
    let last = below(&rt, Form::Mem)?;
    let text = text_of(&rt, Form::Segregate { parts, last })?;
    assert_eq!(rt; text.as_str(), "segregate(8,null,64,null,mem)");
    let parent = below(&rt, Form::Mem)?;
    let bounds = Bounds::Range { min: 16, max: 64 };
    let text = text_of(&rt, Form::FreeList { bounds, parent })?;
    assert_eq!(rt; text.as_str(), "freelist(16,64,mem)");
    let parent = below(&rt, Form::Mem)?;
    let text = text_of(
        &rt,
        Form::Quantize {
            kind: RoundKind::Pow2,
            parent,
        },
    )?;
    assert_eq!(rt; text.as_str(), "quantize(pow2,mem)");
    let primary = below(&rt, Form::Null)?;
    let second = below(&rt, Form::Mem)?;
    let text = text_of(&rt, Form::Fallback { primary, second })?;
    assert_eq!(rt; text.as_str(), "fallback(null,mem)");
    let member = below(&rt, Form::Mem)?;
    let text = text_of(
        &rt,
        Form::Buckets {
            min: 1,
            max: 128,
            step: 16,
            member,
        },
    )?;
    assert_eq!(rt; text.as_str(), "buckets(1,128,16,mem)");
    Ok(())
}
