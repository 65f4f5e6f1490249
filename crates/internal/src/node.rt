// A node as one number: its number in its level, its last board, and its boards.
// The parts are taken by `as`: a u32 has no `From` to usize or u8, and `try_from` would say that they may not fit.
ghost use Rattle.std.specs.Prelude.{◌≡◌, ◌/◌, ◌%◌, ◌<◌};
ghost use Rattle.internal.specs.Numbers.{pack};

// The number of a node in its level.
pub fn index_of(node: u32) -> usize
    ensures { result ≡ node / 1024 }
{
    (node / 1024) as usize
}

// The last board of a node.
pub fn last_of(node: u32) -> u8
    ensures { result ≡ node / 128 % 8 }
{
    (node / 128 % 8) as u8
}

// The boards of a node, as a set.
pub fn boards_of(node: u32) -> u8
    ensures { result ≡ node % 128 }
{
    (node % 128) as u8
}

// The node with this number, last board and boards.
pub fn node_of(index: u32, last: u8, boards: u8) -> u32
    requires { index < 2097152 }
    ensures { result ≡ pack index last boards }
{
    (index * 8 + u32::from(last)) * 128 + u32::from(boards)
}
