ghost use Rattle.std.specs.Prelude.{◌≡◌, IfOk};
ghost use Rattle.serde_json.specs.View.{view};
ghost use Rattle.dpx_dpcd.specs.Model.{AreCells, IsPlan};
ghost use Rattle.dpx_files.specs.Model.{model_of, caps_of, extended_of, defers_of, channel_in, block_of, byte_of};

use crate::Field;
use crate::channel::read_channel;
use crate::members::object_in;
use dpx_dpcd::{Channel, SinkPlan};
use hex::FromHex;
use serde_json::Value;

/// A sink with registers.
#[tactic(auto, unfolding(crate::specs::Model::model_of))]
pub(crate) fn read_model(value: &Value) -> Result<SinkPlan, Field>
    ensures value { result ≡ model_of (view value.now) }
    ensures plan { IfOk result IsPlan }
{
    let model = object_in(Field::Model, Some(value))?;
    let caps = read_caps(model)?;
    Ok(SinkPlan::Model {
        caps,
        extended: read_extended(model, caps)?,
        defers: read_defers(model)?,
        channel: read_channel_of(model)?,
    })
}

fn read_caps(model: &Value) -> Result<[u8; 16], Field>
    ensures { result ≡ caps_of (view model.now) }
{
    model.get("caps").and_then(read_block).ok_or(Field::Caps)
}

/// As `caps` where it is absent.
fn read_extended(model: &Value, caps: [u8; 16]) -> Result<[u8; 16], Field>
    ensures { result ≡ extended_of (view model.now) caps }
{
    match model.get("extended") {
        Some(value) => read_block(value).ok_or(Field::Extended),
        None => Ok(caps),
    }
}

fn read_defers(model: &Value) -> Result<u8, Field>
    ensures { result ≡ defers_of (view model.now) }
{
    match model.get("defers") {
        Some(value) => read_byte(value).ok_or(Field::Defers),
        None => Ok(0),
    }
}

fn read_channel_of(model: &Value) -> Result<Channel, Field>
    ensures value { result ≡ channel_in (view model.now) }
    ensures cells { IfOk result (AreCells 16) }
{
    match model.get("channel") {
        Some(value) => read_channel(value).ok_or(Field::Channel),
        None => Ok(Channel::perfect()),
    }
}

fn read_block(value: &Value) -> Option<[u8; 16]>
    ensures { result ≡ block_of (view value.now) }
{
    let text = value.as_str()?;
    <[u8; 16] as FromHex>::from_hex(text).ok()
}

fn read_byte(value: &Value) -> Option<u8>
    ensures { result ≡ byte_of (view value.now) }
{
    u8::try_from(value.as_u64()?).ok()
}
