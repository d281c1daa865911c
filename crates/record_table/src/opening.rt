// The words that a table is made with.
ghost use Rattle.std.specs.Prelude.{◌≡◌, ◌++◌, OnOk, IfOk, replicate, length};
ghost use Rattle.record_rule.specs.Opening.{opening_words, rows_of};
ghost use Rattle.record_rule.specs.Records.{IsSetup};

use record_memory::{OF_RECORD, Setup, controls_of};
use row_words::{pack_key, pack_number};
use std::alloc::{AllocError, Global};

// The kind of a root's key word.
const ROOT: u8 = 1;

// The epoch that a table starts with.
const FIRST_EPOCH: u64 = 1;

fn push_copies(words: &mut Vec<u64>, value: u64, count: usize) -> Result<(), AllocError>
    ensures { OnOk result (words.new.items ≡ words.old.items ++ replicate count value) }
{
    for _done in 0..count {
        words.push(value)?;
    }
    Ok(())
}

fn push_rows(words: &mut Vec<u64>, row: &[u64], count: u32) -> Result<(), AllocError>
    ensures { OnOk result (words.new.items ≡ words.old.items ++ rows_of count row.now) }
{
    for _done in 0..count {
        words.extend_from_slice(row)?;
    }
    Ok(())
}

// The control words, then the roots, then the records that were never handed out.
pub(crate) fn laid_words(alloc: Global, setup: &Setup) -> Result<Vec<u64>, AllocError>
    requires { IsSetup setup.now }
    ensures { IfOk result (λ v. v.items ≡ opening_words setup.now) }
{
    let controls = controls_of(setup.callers);
    let row_words = OF_RECORD as usize;
    let mut words = Vec::with_capacity(alloc, controls + row_words * setup.records as usize)?;
    words.push(u64::from(setup.roots))?;
    words.push(FIRST_EPOCH)?;
    push_copies(&mut words, 0, controls - 2)?;
    let zero = pack_number(setup.first, 0);
    let root = pack_key(setup.first, ROOT, 0);
    push_rows(
        &mut words,
        &[zero, zero, zero, zero, root, zero, zero, zero],
        setup.roots,
    )?;
    push_rows(
        &mut words,
        &[pack_number(setup.first - 1, 0); OF_RECORD as usize],
        setup.records - setup.roots,
    )?;
    Ok(words)
}
