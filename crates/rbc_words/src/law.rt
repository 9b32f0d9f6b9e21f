//! The law on texts.

ghost use Rattle.rbc_words.specs.TextLaw.{EachIsEncoded, EachEncodedIsDescribed, EachDescribedIsOfAMessage};
ghost use Rattle.rbc_words.specs.TextLaw.{EachHasItsWords, OneMessageEach, OneEncodingEach, OneWrongWordEach};

/// How texts and bytes of messages belong together.
///
/// - The text of each message whose variables are in their ranges is encoded to some bytes.
/// - Bytes that a text is encoded to are described as that text.
/// - A text that bytes are described as is that of a message whose variables are in their ranges, and the bytes
///   spell it.
/// - Two messages with the same text are the same. So a text is encoded to the same bytes whenever it is.
/// - Between single spaces the text of a message from a train has the words that the parser of its grammar reads.
/// - A text has one first wrong word at most, and a text that is encoded has none.
pub fn text_law()
    ensures encoded { EachIsEncoded }
    ensures described { EachEncodedIsDescribed }
    ensures of_a_message { EachDescribedIsOfAMessage }
    ensures one_message { OneMessageEach }
    ensures one_encoding { OneEncodingEach }
    ensures words { EachHasItsWords }
    ensures one_wrong_word { OneWrongWordEach }
{}
