//! Members of parameters.
ghost use Rattle.std.specs.Prelude.{◌≡◌, option_map};
ghost use Rattle.serde_json.specs.View.{view};
ghost use Rattle.client_texts.specs.Params.{integer_at, number_at, place_at, place_of, text_at};
ghost use Rattle.client_texts.specs.Params.{uri_of, version_of};
ghost use Rattle.client_texts.specs.Views.{place_view};

use line_index::Position;
use serde_json::Value;

/// A member that is a text.
pub fn text_at<'a>(name: &str, value: &'a Value) -> Option<&'a str>
    ensures { option_map (λ t. t.now) result ≡ text_at name.now (view value.now) }
{
    value.get(name).and_then(Value::as_str)
}

fn number_at(name: &str, value: &Value) -> Option<u64>
    ensures { result ≡ number_at name.now (view value.now) }
{
    value.get(name).and_then(Value::as_u64)
}

fn integer_at(name: &str, value: &Value) -> Option<i64>
    ensures { result ≡ integer_at name.now (view value.now) }
{
    value.get(name).and_then(Value::as_i64)
}

fn place_of(value: &Value) -> Option<Position>
    ensures { option_map place_view result ≡ place_of (view value.now) }
{
    let line = number_at("line", value)?;
    let column = number_at("character", value)?;
    Some(Position {
        line: line as usize,
        column: column as usize,
    })
}

/// A member that is a line and a column.
pub fn place_at(name: &str, value: &Value) -> Option<Position>
    ensures { option_map place_view result ≡ place_at name.now (view value.now) }
{
    place_of(value.get(name)?)
}

/// The name of the document that parameters are about.
pub fn uri_of(params: &Value) -> Option<&str>
    ensures { option_map (λ t. t.now) result ≡ uri_of (view params.now) }
{
    text_at("uri", params.get("textDocument")?)
}

/// The version of the document that parameters are about.
pub(crate) fn version_of(params: &Value) -> Option<i64>
    ensures { result ≡ version_of (view params.now) }
{
    integer_at("version", params.get("textDocument")?)
}
