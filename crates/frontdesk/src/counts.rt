// How much of an array is lent where its first `count` are meant: all of it at most.
ghost use Rattle.base.specs.Sheets.{Counts};

pub fn wholes(count: usize, array: &[u64]) -> usize
    ensures { Counts result array.now }
{
    if array.len() < count {
        return array.len();
    }
    count
}

pub fn reals(count: usize, array: &[f64]) -> usize
    ensures { Counts result array.now }
{
    if array.len() < count {
        return array.len();
    }
    count
}

pub fn halves(count: usize, array: &[u32]) -> usize
    ensures { Counts result array.now }
{
    if array.len() < count {
        return array.len();
    }
    count
}

pub fn bytes(count: usize, array: &[u8]) -> usize
    ensures { Counts result array.now }
{
    if array.len() < count {
        return array.len();
    }
    count
}
