//! Laws of reports. Each function does nothing when it runs: its contract is the law.
ghost use Rattle.benson_dual.specs.Reports.{DualLinesTell, ImagePartsAgree};

/// Two right solutions for one file and one duality vector have the same report up to the
/// witnesses.
pub fn image_parts_agree()
    ensures { ImagePartsAgree }
{}

/// The lines `dual` of the report of a right solution tell the lower image.
pub fn dual_lines_tell()
    ensures { DualLinesTell }
{}
