//! Chain files, read.
ghost use Rattle.std.specs.Prelude.{◌≡◌, ◌≤◌, IfOk, IfErr};
ghost use Rattle.chains.specs.ChainComplex.{IsComplex};
ghost use Rattle.chain_files.specs.Content.{Content};
ghost use Rattle.chain_files.specs.ChainFile.{HasValue};
ghost use Rattle.chain_files.specs.Complexes.{count_in, AreByDegree, AreCountsBelow, IsFileComplex};
ghost use Rattle.chain_files.specs.Faults.{IsFaultOf};
ghost use Rattle.chain_files.specs.Making.{IsGraded, IsComplexFault};

use crate::fault::ChainFault;
use crate::gathered::Gathered;
use crate::making::{chains_of, complex_fault, counts_of, sums_before};
use crate::text::gather;
use chains::Complex;
use field_mod::Field;
use std::alloc::{AllocError, Global};
use std::marker::Model;

/// A chain complex over the numbers modulo `P` as a chain file gives it, with the greatest degree
/// that the file names. Its generators are numbered from 0, degree by degree, and in a degree as in
/// the file.
#[derive(Drop)]
pub struct ChainFile<const P: u16> {
    top: u8,
    counts: Vec<u32>,
    complex: Complex<P>,
}

impl<const P: u16> Model for ChainFile<P> {
    ghost use Rattle.chain_files.specs.Complexes.{FileComplex, AreByDegree};
    ghost use Rattle.chain_files.specs.Making.{AreCounts};

    ghost Value = { FileComplex };

    ghost view = { λ f. record { top = f.top; complex = f.complex } };

    ghost invariant = { λ f. AreCounts f.complex.degrees f.top f.counts.items
        × AreByDegree f.top f.complex.degrees };
}

impl<const P: u16> ChainFile<P> {
    /// The greatest degree. It takes no memory.
    pub fn top(&self) -> u8
        ensures value { result ≡ self.now.top }
        ensures numbered { AreByDegree self.now.top self.now.complex.degrees }
    {
        self.top
    }

    /// How many generators a degree up to the greatest has. It takes no memory.
    pub fn count(&self, degree: u8) -> u32
        requires { degree ≤ self.now.top }
        ensures { result ≡ count_in self.now.complex.degrees degree }
    {
        self.counts[degree as usize]
    }

    /// For each degree up to the greatest, how many generators have a lower one: that many
    /// generators of the complex come before those of the degree.
    pub fn counts_below(&self, alloc: Global) -> Result<Vec<u32>, AllocError>
        ensures { IfOk result (λ counts. AreCountsBelow self.now.complex.degrees self.now.top
            counts.items) }
    {
        // Its clauses say that there are few generators.
        let _len = self.complex.len();
        sums_before(alloc, &self.counts)
    }

    /// The complex. It takes no memory.
    pub fn into_complex(self) -> Complex<P>
        ensures { result ≡ self.entry.complex }
    {
        self.complex
    }
}

/// The complex of a chain file: the value of the text, or the place and the cause of its refusal,
/// or where its boundary of a boundary is not 0 first, by degree, generator and place. Terms are
/// sorted; else the work grows with the text, and with the number of terms of boundaries of
/// boundaries.
pub fn read_complex<const P: u16>(
    alloc: Global,
    field: Field<P>,
    bytes: &[u8],
) -> Result<ChainFile<P>, ChainFault>
    ensures value { IfOk result (λ file. (content : Content) × HasValue P bytes.now content
        × IsFileComplex P content file × IsComplex P file.complex) }
    ensures refusal { IfErr result (IsFaultOf P bytes.now) }
{
    let known = gather(alloc, field, bytes)?;
    made(alloc, field, known)
}

// The complex of what a chain file says.
fn made<const P: u16>(
    alloc: Global,
    field: Field<P>,
    known: Gathered,
) -> Result<ChainFile<P>, ChainFault>
    requires graded { IsGraded known.content }
    requires numbered { AreByDegree known.content.top known.content.degrees }
    ensures ok { IfOk result
        (λ file. IsFileComplex P known.content file × IsComplex P file.complex) }
    ensures err { IfErr result (IsComplexFault P known.content) }
{
    let top = known.top();
    let (degrees, entries) = known.into_parts();
    let chains = chains_of(alloc, field, entries.as_slice())?;
    drop(entries);
    let counts = counts_of(alloc, top, degrees.as_slice())?;
    let kept = Vec::from_slice(alloc, degrees.as_slice())?;
    match Complex::new(alloc, field, degrees, chains) {
        Ok(complex) => Ok(ChainFile {
            top,
            counts,
            complex,
        }),
        Err(fault) => Err(complex_fault(kept.as_slice(), fault)),
    }
}
