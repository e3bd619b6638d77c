//! What follows from the definitions of `specs/`, each as the contract of a function that does nothing.
ghost use Rattle.std.specs.Prelude.{◌≡◌, ◌<◌, ◌+◌, ◌↔◌, ◌++◌, ◌∷◌, [], ℕ, List, length, Option, None, Some, slice_get};
ghost use Rattle.std.specs.List.{All};
ghost use Rattle.mn_flight.specs.declared.Item.{Item as ItemOf};
ghost use Rattle.mn_flight.specs.Flying.{IsFlight, on_channel, off_channel, without};
ghost use Rattle.mn_flight.specs.Earliest.{earliest, IsEarliest};
ghost use Rattle.mn_flight.specs.Four.{four, seventh, twelfth};

/// The earliest item is due by the limit and goes before each other that is, and where one is due there is an earliest.
pub fn earliest_goes_first<T>()
    ensures some { (channels limit : ℕ) (items : List (ItemOf T)) (item : ItemOf T) → IsFlight channels items → (earliest limit items ≡ Some item) ↔ IsEarliest limit items item }
    ensures none { (channels limit : ℕ) (items : List (ItemOf T)) → IsFlight channels items → (earliest limit items ≡ None) ↔ All (λ item. limit < item.due) items }
{}

/// What the calls of a flight leave is a flight: numbers ascend and channels are in range.
pub fn calls_keep_a_flight<T>()
    ensures none_yet { (channels : ℕ) → IsFlight {T = T} channels [] }
    ensures pushed { (channels : ℕ) (items : List (ItemOf T)) (item : ItemOf T) → IsFlight channels items → item.channel < channels → All (λ earlier. earlier.number < item.number) items → IsFlight channels (items ++ item ∷ []) }
    ensures taken { (channels : ℕ) (items : List (ItemOf T)) (taken : Option (ItemOf T)) → IsFlight channels items → IsFlight channels (without taken items) }
    ensures dropped { (channels channel : ℕ) (items : List (ItemOf T)) → IsFlight channels items → IsFlight channels (off_channel channel items) }
{}

/// To take an item, by its place on a channel or as the earliest, leaves one item less. So it raises `spare` by one.
pub fn taking_leaves_one_less<T>()
    ensures by_place { (channels channel place : ℕ) (items : List (ItemOf T)) (item : ItemOf T) → IsFlight channels items → slice_get (on_channel channel items) place ≡ Some item → length (without (Some item) items) + 1 ≡ length items }
    ensures earliest { (channels limit : ℕ) (items : List (ItemOf T)) (item : ItemOf T) → IsFlight channels items → earliest limit items ≡ Some item → length (without (Some item) items) + 1 ≡ length items }
{}

/// Four items that fly on three channels: what each premise of the laws asks is met.
pub fn four_items_fly()
    ensures flight { IsFlight 3 four }
    ensures earliest { earliest 10 four ≡ Some seventh }
    ensures first { IsEarliest 10 four seventh }
    ensures none_due { earliest 9 four ≡ None }
    ensures all_later { All (λ item. 9 < item.due) four }
    ensures second_on_its_channel { slice_get (on_channel 2 four) 1 ≡ Some twelfth }
    ensures greater_number { All (λ item. item.number < 13) four }
{}
