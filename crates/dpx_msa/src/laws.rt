ghost use Rattle.dpx_msa.specs.Columns.{ColumnsComeBack, EachPlaceOnce};
ghost use Rattle.dpx_msa.specs.Reading.{ReadsBack};

/// What is spelled of a mode is read as the mode's numbers.
pub fn what_is_spelled_is_read()
    ensures { ReadsBack }
{}

/// The lanes carry each byte of the columns once, and the columns come back out of what they carry.
pub fn columns_come_back()
    ensures once { EachPlaceOnce }
    ensures back { ColumnsComeBack }
{}
