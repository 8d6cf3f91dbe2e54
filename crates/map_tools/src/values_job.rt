//! What `chkmvmap` is asked to do.
use basis_reports::Modulus;
use pair_maps::MapFiles;

/// What the tool is asked to do.
#[derive(Drop)]
pub struct ValuesJob {
    /// The files of the map and of its sets; of the command these have no subsets.
    pub files: MapFiles,
    /// The modulus of the coefficients.
    pub modulus: Modulus,
}
