//! The laws of columns. The function does nothing: the laws are its contract.
ghost use Rattle.show_sample.specs.Columns.{ColumnsCoverPoints, ColumnsHavePoints};

/// The laws that the columns of a waveform stand for all points, each for points of its own, and that none is empty.
pub fn columns_cover_points()
    ensures cover { ColumnsCoverPoints }
    ensures filled { ColumnsHavePoints }
{}
