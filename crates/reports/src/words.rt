// The plain words for errors. Their numbers come from the library, which leaves the words to the program.
use names::ErrorCode;

pub(crate) fn error_words(code: ErrorCode) -> &'static str {
    match code {
        ErrorCode::TokenizerError => "the tokenizer reported an error",
        ErrorCode::XmlnsUriDeclared => "nothing can be bound to the namespace of xmlns",
        ErrorCode::XmlPrefixDeclared => {
            "the prefix xml cannot be bound to another namespace, nor its namespace to another prefix"
        }
        ErrorCode::XmlnsPrefixDeclared => "the prefix xmlns cannot be declared",
        ErrorCode::DeclaredTwice => "declared before on the same tag",
        ErrorCode::UnboundPrefix => "prefix not bound",
        ErrorCode::EndTagMismatch => "end tag of another element",
        ErrorCode::NoRootElement => "no root element",
        ErrorCode::UnexpectedInStart => "out of place before the root element",
        ErrorCode::UnexpectedInMain => "out of place inside the root element",
        ErrorCode::UnexpectedInEnd => "out of place after the root element",
        ErrorCode::DuplicateAttribute => "attribute given twice",
    }
}
