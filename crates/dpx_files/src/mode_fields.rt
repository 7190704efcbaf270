ghost use Rattle.std.specs.Prelude.{◌≡◌, ◌≤◌, IfOk};
ghost use Rattle.serde_json.specs.View.{view};
ghost use Rattle.dpx_base.specs.Mode.{IsLegal};
ghost use Rattle.dpx_base.specs.RawMode.{facts_of};
ghost use Rattle.dpx_files.specs.ModeFields.{extent_of, syncs_of, polarity_of, depth_of, depth_from, mode_of};
ghost use Rattle.dpx_files.specs.ModeFields.{IsExtent, AreSyncs};

use crate::Field;
use crate::members::{read_flag, read_ranged};
use dpx_base::{Depth, Mode, RawMode};
use serde_json::Value;

/// The pixels of a line and the lines of a frame, and both again with the blank ones.
#[derive(Clone, Copy)]
pub(crate) struct Extent {
    width: u32,
    height: u32,
    htotal: u32,
    vtotal: u32,
}

/// The sync pulses, and where they start.
#[derive(Clone, Copy)]
pub(crate) struct Syncs {
    hsw: u32,
    hstart: u32,
    vsw: u32,
    vstart: u32,
}

/// The mode with these fields. Each is in its range.
pub(crate) fn legal_mode(raw: RawMode) -> Mode
    requires { IsLegal (facts_of raw) }
    ensures { result ≡ facts_of raw }
{
    match Mode::read(&raw) {
        Ok(mode) => mode,
        Err(_) => unreachable!(),
    }
}

#[tactic(auto, unfolding(crate::specs::ModeFields::extent_of))]
fn read_extent(mode: &Value) -> Result<Extent, Field>
    ensures value { result ≡ extent_of (view mode.now) }
    ensures range { IfOk result IsExtent }
{
    let width = read_ranged(Field::Width, 16, 8192, mode)?;
    let height = read_ranged(Field::Height, 1, 8192, mode)?;
    Ok(Extent {
        width,
        height,
        htotal: read_ranged(Field::Htotal, width + 1, 65_535, mode)?,
        vtotal: read_ranged(Field::Vtotal, height + 2, 65_535, mode)?,
    })
}

#[tactic(auto, unfolding(crate::specs::ModeFields::syncs_of))]
fn read_syncs(extent: Extent, mode: &Value) -> Result<Syncs, Field>
    requires { IsExtent extent }
    ensures value { result ≡ syncs_of extent (view mode.now) }
    ensures range { IfOk result (AreSyncs extent) }
{
    let hblank = extent.htotal - extent.width;
    let vblank = extent.vtotal - extent.height;
    let hsw = read_ranged(Field::Hsw, 1, hblank.min(32_767), mode)?;
    let hstart = read_ranged(Field::Hstart, hsw, hblank, mode)?;
    let vsw = read_ranged(Field::Vsw, 1, vblank.min(32_767), mode)?;
    let vstart = read_ranged(Field::Vstart, vsw, vblank, mode)?;
    Ok(Syncs {
        hsw,
        hstart,
        vsw,
        vstart,
    })
}

/// The bit 0, where the member is absent.
fn read_polarity(field: Field, mode: &Value) -> Result<bool, Field>
    ensures { result ≡ polarity_of field (view mode.now) }
{
    match mode.get(field.name()) {
        Some(value) => read_flag(value).ok_or(field),
        None => Ok(false),
    }
}

fn read_depth(mode: &Value) -> Result<Depth, Field>
    ensures { result ≡ depth_of (view mode.now) }
{
    mode.get("depth")
        .and_then(Value::as_u64)
        .and_then(depth_from)
        .ok_or(Field::Depth)
}

fn depth_from(bits: u64) -> Option<Depth>
    ensures { result ≡ depth_from bits }
{
    let Ok(bits) = u8::try_from(bits) else {
        return None;
    };
    Depth::from_bits(bits)
}

/// The fields of a mode, in their order.
#[tactic(auto, unfolding(crate::specs::ModeFields::mode_of))]
pub(crate) fn read_mode(mode: &Value) -> Result<Mode, Field>
    ensures value { result ≡ mode_of (view mode.now) }
    ensures legal { IfOk result IsLegal }
{
    let extent = read_extent(mode)?;
    let syncs = read_syncs(extent, mode)?;
    let hsp = read_polarity(Field::Hsp, mode)?;
    let vsp = read_polarity(Field::Vsp, mode)?;
    let clock_khz = read_ranged(Field::Clock, 1, 1_440_000, mode)?;
    let depth = read_depth(mode)?;
    Ok(legal_mode(RawMode {
        width: extent.width,
        height: extent.height,
        htotal: extent.htotal,
        vtotal: extent.vtotal,
        hsw: syncs.hsw,
        hstart: syncs.hstart,
        vsw: syncs.vsw,
        vstart: syncs.vstart,
        hsp,
        vsp,
        clock_khz,
        depth,
    }))
}
