// What each of refusals 2 to 5 answers. Each is an enum, though of two cases without a value: by 01 each check answers an enum, and
// `FileRefusal.antt` gives the number for each case.

// 2. Participants not 1 to 32, routes above 64 or tickets above 512.
#[derive(Clone, Copy)]
pub enum Ranged {
    Within,
    Outside,
}

// 3. Offsets or file length other than the layout gives.
#[derive(Clone, Copy)]
pub enum Placed {
    Right,
    Wrong,
}

// 4. A participant row that is wrong.
#[derive(Clone, Copy)]
pub enum Enrolled {
    Right,
    Wrong,
}

// 5. A route row that is wrong.
#[derive(Clone, Copy)]
pub enum Routed {
    Right,
    Wrong,
}
