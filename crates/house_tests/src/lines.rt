// Sources in fixed form and what they list, or the line that is refused. What no clause says is
// that the definitions mean what is wanted, and that memory is not refused where there is enough.

use f77_lines::{Line, LineRefusal, MOST_BYTES, first_behind, statements};
use std::alloc::{AllocError, Global};
use std::fmt::Write;
use std::test::Fail;

// What bytes list, each entry in front of a bar, with the place of the rest and the refusal of
// the first line behind END; or their refusal.
fn shown(alloc: Global, bytes: &[u8]) -> Result<String, AllocError> {
    let mut out = String::new(alloc);
    if bytes.len() > MOST_BYTES {
        return Ok(out);
    }
    match statements(alloc, bytes) {
        Ok((lines, rest)) => {
            for line in &lines {
                show(&mut out, line)?;
            }
            write!(out, "{rest}")?;
            if let Some(behind) = first_behind(bytes, rest) {
                let refusal = LineRefusal::AfterEnd(behind);
                write!(out, " {refusal}")?;
            }
        }
        Err(refusal) => write!(out, "{refusal}")?,
    }
    Ok(out)
}

fn show(out: &mut String, line: &Line) -> Result<(), AllocError> {
    let text = match line {
        Line::Statement { line, label, text } => {
            write!(out, "{line} {label} ")?;
            text
        }
        Line::Directive { line, text } => {
            write!(out, "{line} directive ")?;
            text
        }
    };
    for c in text {
        out.push(char::from(*c))?;
    }
    out.push('|')?;
    Ok(())
}

#[test]
fn sources_are_listed_or_refused(rt: HostRuntime) -> Result<(), Fail> {
    let sources = [
        // blanks and small letters, a label
        (
            "      D o 1 0 i = 1 , 3\n   10 k = k + i\n      P R I N T * , k\n      end\n",
            "1 0 DO10I=1,3|2 10 K=K+I|3 0 PRINT*,K|4 0 END|72",
        ),
        // comments and directives, also between the lines of a statement; a shared label
        (
            "* a\tcomment\n\nC$DIST A(BLOCK, *)\n      k\nc$Dist b ( cyclic )\n     + = 1\nC\n     &+2\n 0 10 x\n   10 x\n  9 9 E N D\n",
            "3 directive A(BLOCK,*)|4 0 K=1+2|5 directive B(CYCLIC)|9 10 X|10 10 X|11 99 END|110",
        ),
        // constants keep their blanks and small letters, and a line is filled with blanks
        (
            "      k='a ''b c' , ' d'\n      end\n",
            "1 0 K='a ''b c',' d'|2 0 END|35",
        ),
        (
            "      K='x\n     +y'z\n      END\n",
            "1 0 K='x                                                              y'Z|3 0 END|31",
        ),
        // columns past 72 are ignored: a tab there, a constant's end
        (
            "      K=1                                                               \t2\n      END                                                               X\n",
            "1 0 K=1|2 0 END|149",
        ),
        // line ends: CR and LF, and none behind the last line
        ("      K=1\r\n\r\n      END", "1 0 K=1|3 0 END|22"),
        // a 0 in column 6 begins a statement; one without a text
        (
            "     0K=1\n     0\n   10\n      END\n",
            "1 0 K=1|2 0 |3 10 |4 0 END|33",
        ),
        // END by continuation is no END line, and a line behind END continues nothing
        ("      EN\n     +D\n      END\n", "1 0 END|3 0 END|27"),
        ("      END\n     +FILE\n", "1 0 END|10 REFUSED L5 LINE 2"),
        ("      END\nC \x01\n   \n", "1 0 END|10"),
        ("      PROGRAM ONE\n ", "REFUSED L4 LINE 3"),
        ("C\n\tK=1\n      END\n", "REFUSED L1 LINE 2"),
        ("      END\r", "REFUSED L1 LINE 1"),
        ("  0   END\n", "REFUSED L2 LINE 1"),
        ("C\n     +K=1\n      END\n", "REFUSED L3 LINE 2"),
        ("      K=1\n   10+2\n      END\n", "REFUSED L3 LINE 2"),
        // in one line a bad character comes first, and of two lines the first counts
        ("A     K=\t1\n      END\n", "REFUSED L1 LINE 1"),
        ("00    K=1\n      \t\n", "REFUSED L2 LINE 1"),
    ];
    for (source, listed) in sources {
        assert_eq!(rt;
            shown(rt.alloc(), source.as_bytes())?.as_str(),
            listed,
            "{source}"
        );
    }
    Ok(())
}

// A statement with so many continuation lines, and END.
fn continued(alloc: Global, count: u32) -> Result<String, AllocError> {
    let mut source = String::from_str(alloc, "      K=1\n")?;
    for _ in 0..count {
        source.push_str("     ++1\n")?;
    }
    source.push_str("      END\n")?;
    Ok(source)
}

#[test]
fn nineteen_continuation_lines_are_taken(rt: HostRuntime) -> Result<(), Fail> {
    let most = continued(rt.alloc(), 19)?;
    assert_eq!(rt;
        shown(rt.alloc(), most.as_bytes())?.as_str(),
        "1 0 K=1+1+1+1+1+1+1+1+1+1+1+1+1+1+1+1+1+1+1+1|21 0 END|191"
    );
    let more = continued(rt.alloc(), 20)?;
    assert_eq!(rt;
        shown(rt.alloc(), more.as_bytes())?.as_str(),
        "REFUSED L3 LINE 21"
    );
    Ok(())
}
