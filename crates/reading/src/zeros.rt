// Tables whose words are all zero, as those that were just allocated: what they held before a call can be put back.
ghost use Rattle.std.specs.Prelude.{◌≡◌, length, replicate};
ghost use Rattle.octets.specs.Runs.{only};
ghost use Rattle.reading.specs.NewTables.{is_zero};

// Whether every word is zero. The loop has no branch, so that it becomes vector code.
pub fn all_zero(table: &[u32]) -> bool
    ensures { result ≡ only is_zero table.now }
{
    let mut hit: u8 = 0;
    for word in table {
        hit |= u8::from(*word != 0);
    }
    hit == 0
}

// Makes every word zero.
pub fn clear(table: &mut [u32])
    ensures { table.new ≡ replicate (length table.old) 0 }
{
    table.fill(0);
}
