ghost use Rattle.std.specs.Prelude.{◌≡◌};
ghost use Rattle.serde_json.specs.View.{view};
ghost use Rattle.dpx_base.specs.Lanes.{lanes_from_count};
ghost use Rattle.dpx_files.specs.LinkFields.{link_of, rate_of, lanes_of, enhanced_of, rate_named};

use crate::Field;
use crate::members::{object_in, read_flag};
use dpx_base::{Lanes, Link, Rate};
use serde_json::Value;

/// The link that the root of a job asks for.
#[tactic(auto, unfolding(crate::specs::LinkFields::link_of))]
pub(crate) fn read_link(root: &Value) -> Result<Link, Field>
    ensures { result ≡ link_of (view root.now) }
{
    let link = object_in(Field::Link, root.get("link"))?;
    Ok(Link {
        rate: read_rate(link)?,
        lanes: read_lanes(link)?,
        enhanced: read_enhanced(link)?,
    })
}

fn read_rate(link: &Value) -> Result<Rate, Field>
    ensures { result ≡ rate_of (view link.now) }
{
    link.get("rate")
        .and_then(Value::as_str)
        .and_then(rate_named)
        .ok_or(Field::Rate)
}

fn read_lanes(link: &Value) -> Result<Lanes, Field>
    ensures { result ≡ lanes_of (view link.now) }
{
    link.get("lanes")
        .and_then(Value::as_u64)
        .and_then(lanes_from_count)
        .ok_or(Field::Lanes)
}

/// Enhanced framing, where the member is absent.
fn read_enhanced(link: &Value) -> Result<bool, Field>
    ensures { result ≡ enhanced_of (view link.now) }
{
    match link.get("enhanced") {
        Some(value) => read_flag(value).ok_or(Field::Enhanced),
        None => Ok(true),
    }
}

fn rate_named(name: &str) -> Option<Rate>
    ensures { result ≡ rate_named name.now }
{
    match name {
        "RBR" => Some(Rate::Rbr),
        "HBR" => Some(Rate::Hbr),
        "HBR2" => Some(Rate::Hbr2),
        "HBR3" => Some(Rate::Hbr3),
        _ => None,
    }
}

fn lanes_from_count(number: u64) -> Option<Lanes>
    ensures { result ≡ lanes_from_count number }
{
    let Ok(count) = u8::try_from(number) else {
        return None;
    };
    Lanes::from_count(count)
}
