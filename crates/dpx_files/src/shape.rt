ghost use Rattle.std.specs.Prelude.{◌≡◌, IfOk};
ghost use Rattle.serde_json.specs.View.{view};
ghost use Rattle.dpx_files.specs.Shape.{shape_of, IsShape};

use crate::Field;
use crate::members::{object_in, read_ranged_or};
use crate::mode_fields::read_mode;
use dpx_base::Mode;
use serde_json::Value;

/// What is sent.
#[derive(Clone, Copy, Drop)]
pub struct Shape {
    pub mode: Mode,
    /// 1 to 65,535.
    pub frames: u32,
    /// The clocks of a transfer unit, 32 to 64.
    pub unit: u8,
}

/// What the root of a job asks to be sent.
#[tactic(auto, unfolding(crate::specs::Shape::shape_of))]
pub(crate) fn read_shape(root: &Value) -> Result<Shape, Field>
    ensures value { result ≡ shape_of (view root.now) }
    ensures shape { IfOk result IsShape }
{
    let member = object_in(Field::Mode, root.get("mode"))?;
    Ok(Shape {
        mode: read_mode(member)?,
        frames: read_ranged_or(Field::Frames, 1, 1, 65_535, member)?,
        unit: read_ranged_or(Field::Unit, 64, 32, 64, member)? as u8,
    })
}
