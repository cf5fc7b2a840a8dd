//! Texts, and the lines of JSON that tell of the steps of their calls.
use crate::traces::{ALL, expect, told};
use expander_trace::limits::Limits;
use std::alloc::Global;
use std::test::Fail;
use step_report::{Asked, Form, Question};
use tt_data::TtFault;

const OTHER: &str = "macro_rules! pair { ($a:tt) => { one!($a) } }";

const TEXT: &str = "macro_rules! one { (x) => { 1 } }\nlet é = pair!(x);\none!(2); no!();\n";

const TOLD: &str =
    r##"{"answer":"step","call":{"at":{"bytes":[43,47],"end":[1,12],"start":[1,8]},"made":false,"name":"pair","tokens":{"origins":[0,43,47,0,47,48,0,48,49,0,49,50,0,50,51],"text":"pair ! ( x )\n"}},"index":0,"level":0,"outcome":{"bindings":[{"kind":"tt","name":"a","rounds":[],"tokens":{"origins":[0,49,50],"text":"x\n"}}],"macro":{"at":{"bytes":[13,17],"source":"other.rs"},"name":"pair"},"notes":[],"result":{"origins":[1,33,36,1,36,37,1,37,38,0,49,50,1,40,41],"text":"one ! ( x )\n"},"rule":{"number":1},"stays":null},"parent":null,"v":1}
{"answer":"step","call":{"at":{"bytes":[33,36],"source":"other.rs"},"made":true,"name":"one","tokens":{"origins":[1,33,36,1,36,37,1,37,38,0,49,50,1,40,41],"text":"one ! ( x )\n"}},"index":1,"level":1,"outcome":{"bindings":[],"macro":{"at":{"bytes":[13,16],"end":[0,16],"start":[0,13]},"name":"one"},"notes":[],"result":{"origins":[0,28,29],"text":"1\n"},"rule":{"number":1},"stays":null},"parent":0,"v":1}
{"answer":"step","call":{"at":{"bytes":[53,56],"end":[2,3],"start":[2,0]},"made":false,"name":"one","tokens":{"origins":[0,53,56,0,56,57,0,57,58,0,58,59,0,59,60],"text":"one ! ( 2 )\n"}},"index":2,"level":0,"outcome":{"bindings":null,"macro":{"at":{"bytes":[13,16],"end":[0,16],"start":[0,13]},"name":"one"},"notes":null,"result":null,"rule":null,"stays":{"message":"no rule matches"}},"parent":null,"v":1}
{"answer":"step","call":{"at":{"bytes":[62,64],"end":[2,11],"start":[2,9]},"made":false,"name":"no","tokens":null},"index":3,"level":0,"outcome":{"bindings":null,"macro":null,"notes":null,"result":null,"rule":null,"stays":{"message":"no definition of this macro is known here"}},"parent":null,"v":1}
{"answer":"end","cut":false,"steps":4,"v":1}
"##;

const CUT_TOLD: &str =
    r##"{"answer":"cut","by":"Steps","message":"there are more steps than are asked for","v":1}
{"answer":"end","cut":true,"steps":0,"v":1}
"##;

// The lines for the calls of a text.
fn lines(alloc: Global, text: &str, limits: Limits) -> Result<String, TtFault> {
    let asked = Asked::All;
    let form = Form::Json;
    let (text, _) = told(
        alloc,
        OTHER,
        text,
        Question {
            asked,
            limits,
            form,
        },
    )?;
    Ok(text)
}

#[test]
fn steps_as_json(rt: HostRuntime) -> Result<(), Fail> {
    let text = lines(rt.alloc(), TEXT, ALL)?;
    expect(text.as_str(), TOLD)?;
    let text = lines(rt.alloc(), TEXT, Limits { steps: 0, ..ALL })?;
    expect(text.as_str(), CUT_TOLD)?;
    let text = lines(rt.alloc(), "a!(", ALL)?;
    expect(text.as_str(), "unread")
}

// Lines that are refused memory are the same when they are made again.
#[test]
fn refused_json(rt: HostRuntime) -> Result<(), Fail> {
    let text = match lines(rt.alloc(), TEXT, ALL) {
        Ok(text) => text,
        Err(_) => lines(rt.alloc(), TEXT, ALL)?,
    };
    expect(text.as_str(), TOLD)
}
