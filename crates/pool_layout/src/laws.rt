// Laws of images, of either variant. With the contracts of `pool_header`, `gc_pool_header` and `image_words` they say that bytes are
// refused exactly where they are no image of a pool, and that the defect which is told is their one first defect.
ghost use Rattle.pool_layout.specs.Laws.{LawOfImages, LawOfNoDefect, LawOfOneDefect, LawOfWordsOfBytes, LawOfBytesOfWords, LawOfPieces};

/// Bytes are the image of a pool of a variant, or they have a defect as one.
pub fn law_of_images()
    ensures { LawOfImages }
{}

/// An image has no defect.
pub fn law_of_no_defect()
    ensures { LawOfNoDefect }
{}

/// Bytes have one first defect at most.
pub fn law_of_one_defect()
    ensures { LawOfOneDefect }
{}

/// Words are read back from their bytes.
pub fn law_of_words_of_bytes()
    ensures { LawOfWordsOfBytes }
{}

/// Bytes are written back from their words.
pub fn law_of_bytes_of_words()
    ensures { LawOfBytesOfWords }
{}

/// The words of bytes are those of their pieces.
pub fn law_of_pieces()
    ensures { LawOfPieces }
{}
