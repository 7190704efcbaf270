ghost use Rattle.dpx_pack.specs.Lines.{PackedIsCarried, PixelsComeBack};

/// Out of bytes that have a line's bits where its pixels stand come its pixels, whatever the padding is. What a
/// line is packed into are such bytes.
pub fn pixels_come_back()
    ensures come_back { PixelsComeBack }
    ensures packed { PackedIsCarried }
{}
